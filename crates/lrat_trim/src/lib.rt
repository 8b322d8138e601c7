//! The log of a search, and its trimming: a certificate needs only the lines that the empty clause reaches through
//! hints, and LRAT wants them numbered without gaps.
#![tactic(auto)]

ghost use Rattle.std.specs.Prelude.{◌++◌, ◌+◌, ◌<◌, ◌^◌, ◌∷◌, ◌≡◌, [], true, length, map, IfOk, OnErr, OnOk};
ghost use Rattle.std.specs.List.{list_all};
ghost use Rattle.lrat_lines.specs.Lines.{is_writable, written};
ghost use Rattle.lrat_lines.specs.Seen.{seen};
ghost use Rattle.lrat_trim.specs.Derivation.{IsFinished, are_earlier, next_id};
ghost use Rattle.lrat_trim.specs.Trim.{IsTrimmed, trim};

mod laws;
mod lines;
mod needed;
mod renumber;
#[cfg(test)]
mod tests;
mod text;

pub use laws::{trimmed_check, trimmed_reached};
use lines::Lines;
use lrat_lines::Line;
use sat_form::Lit;
use std::alloc::{AllocError, Global};
use std::marker::Model;
pub use text::Trimming;

/// What a search learnt, in order: clauses with the ids of those that they follow from. The given clauses have the ids
/// 1 to `inputs`, and the lines the ids behind them.
#[derive(Drop)]
pub struct Log {
    alloc: Global,
    inputs: u64,
    lines: Lines,
}

impl Model for Log {
    ghost use Rattle.std.specs.Prelude.{◌+◌};
    ghost use Rattle.lrat_trim.specs.Derivation.{Derivation, IsLog, logged_from};

    ghost Value = { Derivation };

    ghost view = { λ l. record { inputs = l.inputs; lines = logged_from (l.inputs + 1) l.lines } };

    ghost invariant = { λ l. IsLog l.inputs l.lines };
}

impl Log {
    /// An empty log over so many given clauses. O(1), and it takes no memory.
    pub fn new(alloc: Global, inputs: u64) -> Log
        requires { inputs < 2 ^ 62 }
        ensures { result ≡ record { inputs = inputs; lines = [] } }
    {
        Log {
            alloc,
            inputs,
            lines: Lines::new(alloc),
        }
    }

    /// Adds a line, and answers its id. After a refusal for want of memory the log is unchanged; a hint above 2^32 - 1,
    /// which as many clauses would have to precede, is refused likewise.
    /// O(number of literals and hints), amortised. Memory: 4 bytes a literal and a hint, and 16 bytes a line.
    pub fn push(&mut self, lits: &[Lit], hints: &[u64]) -> Result<u64, AllocError>
        requires room { length self.old.lines < 2 ^ 62 }
        requires earlier { are_earlier (next_id self.old) hints.now ≡ true }
        ensures id { IfOk result (λ id. id ≡ next_id self.old) }
        ensures line { IfOk result (λ id. self.new ≡ record self.old { lines = self.old.lines ++ record { id = id; lits = lits.now; hints = hints.now } ∷ [] }) }
        ensures err { OnErr result (self.new ≡ self.old) }
    {
        let id = self.inputs + self.lines.len() as u64 + 1;
        self.lines.push(lits, hints)?;
        Ok(id)
    }

    /// The lines that the empty clause reaches through hints, in their order, numbered behind the given clauses without
    /// a gap; each may be written. The only error is want of memory.
    ///
    /// One pass back over the lines marks those that are needed, and one pass on copies them:
    /// O(number of lines, of literals and of hints).
    pub fn trim(&self) -> Result<Vec<Line>, AllocError>
        requires { IsFinished self.now.lines }
        ensures reached { IfOk result (λ lines. IsTrimmed self.now.inputs self.now.lines (map seen lines.items)) }
        ensures lines { IfOk result (λ lines. map seen lines.items ≡ trim self.now.inputs self.now.lines) }
        ensures writable { IfOk result (λ lines. list_all is_writable (map seen lines.items) ≡ true) }
    {
        let marks = needed::marks(self.alloc, self.inputs, &self.lines)?;
        renumber::marked_lines(self.alloc, self.inputs, &self.lines, &marks)
    }

    /// The lines that `trim` answers, to be written one after the other, so that a caller who passes their text on needn't
    /// hold it. The only error is want of memory. O(number of lines and hints). Memory: 1 byte a line.
    pub fn trimming(&self) -> Result<Trimming<'_>, AllocError>
        ensures { IfOk result (λ t. t.lines ≡ trim self.now.inputs self.now.lines) }
    {
        let marks = needed::marks(self.alloc, self.inputs, &self.lines)?;
        Ok(Trimming::new(self.alloc, self.inputs, &self.lines, marks))
    }

    /// Appends the text of the lines that `trim` answers, each in its one spelling, without making a list of them.
    ///
    /// The only error is want of memory, and it cuts `out` back to what it was. Time: O(number of lines, of literals and of
    /// hints). Memory: 9 bytes a line, one line, and the text.
    pub fn write_trimmed(&self, out: &mut Vec<u8>) -> Result<(), AllocError>
        requires { IsFinished self.now.lines }
        ensures text { OnOk result (out.new.items ≡ out.old.items ++ written (trim self.now.inputs self.now.lines)) }
        ensures reached { IsTrimmed self.now.inputs self.now.lines (trim self.now.inputs self.now.lines) }
        ensures writable { OnOk result (list_all is_writable (trim self.now.inputs self.now.lines) ≡ true) }
        ensures err { OnErr result (out.new.items ≡ out.old.items) }
    {
        let marks = needed::marks(self.alloc, self.inputs, &self.lines)?;
        let mut trimming = Trimming::new(self.alloc, self.inputs, &self.lines, marks);
        let length = out.len();
        let written = text::write_all(&mut trimming, out);
        if written.is_err() {
            out.truncate(length);
        }
        written
    }
}
