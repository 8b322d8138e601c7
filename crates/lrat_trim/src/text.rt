//! The text of the marked lines of a log, line by line, so that neither a list of lines is made nor the text held whole
//! where the caller takes it in pieces.

ghost use Rattle.std.specs.Prelude.{◌++◌, ◌+◌, ◌<◌, ◌^◌, ◌∷◌, ◌≡◌, [], false, true, length, take, IfOk, OnErr, OnOk};
ghost use Rattle.std.specs.List.{list_all};
ghost use Rattle.lrat_lines.specs.Lines.{is_id, is_literal, is_writable, written, written_line};
ghost use Rattle.lrat_lines.specs.Lines.Line.{Add};
ghost use Rattle.lrat_trim.specs.Derivation.{IsLog, are_earlier, logged_from};
ghost use Rattle.lrat_trim.specs.Marks.{AreClosed, moved_hints};
ghost use Rattle.lrat_trim.specs.Passing.{IsPassing, Writes, all_marked, lines_left};
ghost use Rattle.lrat_trim.specs.Trim.{all_renumbered};

use crate::lines::Lines;
use crate::renumber::moved_hints;
use lrat_lines::write_addition;
use sat_form::Lit;
use std::alloc::{AllocError, Global};
use std::marker::Model;

/// The lines of a log that its empty clause needs, with new ids, while they are written one after the other.
///
/// Contracts see the lines that are still to be written, and how many lines of the log are to be passed for that.
#[derive(Drop)]
pub struct Trimming<'a> {
    alloc: Global,
    inputs: u64,
    lines: &'a Lines,
    marks: Vec<bool>,
    /// The new id that each line passed has, or would have.
    ids: Vec<u64>,
    next_id: u64,
}

impl<'a> Model for Trimming<'a> {
    ghost use Rattle.std.specs.Prelude.{◌-◌, length};
    ghost use Rattle.lrat_trim.specs.Passing.{IsPassing, Left, lines_left};

    ghost Value = { Left };

    ghost view = { λ t. record {
      lines = lines_left t.inputs t.lines.now t.marks.items (length t.ids.items);
      places = length t.lines.now - length t.ids.items;
    } };

    ghost invariant = { λ t. IsPassing t.inputs t.lines.now t.marks.items t.ids.items t.next_id };
}

/// Serves the proof alone: by its type each literal has its range.
fn see_literals(lits: &[Lit])
    ensures { list_all is_literal lits.now ≡ true }
{
    for lit in lits {
        let _var = lit.var();
    }
}

/// Appends a line under a new id, with the new ids of the lines before, which are given by place.
fn write_moved(
    alloc: Global,
    inputs: u64,
    id: u64,
    ids: &[u64],
    lits: &[Lit],
    hints: &[u32],
    out: &mut Vec<u8>,
) -> Result<(), AllocError>
    requires inputs { inputs < 2 ^ 62 }
    requires id { is_id id ≡ true }
    requires known { are_earlier (inputs + 1 + length ids.now) hints.now ≡ true }
    requires ids { list_all is_id ids.now ≡ true }
    ensures ok { OnOk result (out.new.items ≡ out.old.items ++ written_line (Add id lits.now (moved_hints inputs ids.now hints.now))) }
    ensures writable { OnOk result (is_writable (Add id lits.now (moved_hints inputs ids.now hints.now)) ≡ true) }
    ensures err { OnErr result (out.new.items ≡ out.old.items) }
{
    see_literals(lits);
    let moved = moved_hints(alloc, inputs, ids, hints)?;
    write_addition(id, lits, &moved, out)
}

/// Appends the line behind those that have new ids, if it is marked. Answers the new id of the next one.
fn write_marked(
    alloc: Global,
    inputs: u64,
    lines: &Lines,
    marks: &[bool],
    ids: &[u64],
    id: u64,
    out: &mut Vec<u8>,
) -> Result<u64, AllocError>
    requires stands { IsPassing inputs lines.now marks.now ids.now id }
    requires more { length ids.now < length lines.now }
    ensures stands { IfOk result (λ next. IsPassing inputs lines.now marks.now (ids.now ++ id ∷ []) next) }
    ensures text { OnOk result (Writes (lines_left inputs lines.now marks.now (length ids.now)) (lines_left inputs lines.now marks.now (length ids.now + 1)) out.old.items out.new.items) }
    ensures err { OnErr result (out.new.items ≡ out.old.items) }
{
    let at = ids.len();
    if !marks[at] {
        return Ok(id);
    }
    let (lits, hints) = lines.line(at);
    write_moved(alloc, inputs, id, ids, lits, hints, out)?;
    Ok(id + 1)
}

/// Passes the line behind those that have new ids, and appends it if it is marked. Answers the new id of the next one.
fn pass(
    alloc: Global,
    inputs: u64,
    lines: &Lines,
    marks: &[bool],
    ids: &mut Vec<u64>,
    id: u64,
    out: &mut Vec<u8>,
) -> Result<u64, AllocError>
    requires stands { IsPassing inputs lines.now marks.now ids.old.items id }
    requires more { length ids.old.items < length lines.now }
    ensures stands { IfOk result (λ next. IsPassing inputs lines.now marks.now ids.new.items next) }
    ensures passed { OnOk result (length ids.new.items ≡ length ids.old.items + 1) }
    ensures text { OnOk result (Writes (lines_left inputs lines.now marks.now (length ids.old.items)) (lines_left inputs lines.now marks.now (length ids.new.items)) out.old.items out.new.items) }
    ensures same { OnErr result (ids.new.items ≡ ids.old.items) }
    ensures err { OnErr result (out.new.items ≡ out.old.items) }
{
    let length = out.len();
    let next = write_marked(alloc, inputs, lines, marks, ids, id, out)?;
    if let Err(refused) = ids.push(id) {
        out.truncate(length);
        return Err(AllocError::from(refused));
    }
    Ok(next)
}

impl<'a> Trimming<'a> {
    /// The marked lines of a log, none of which is written yet. O(1), and it takes no memory.
    pub(crate) fn new(
        alloc: Global,
        inputs: u64,
        lines: &'a Lines,
        marks: Vec<bool>,
    ) -> Trimming<'a>
        requires log { IsLog inputs lines.now }
        requires size { length marks.items ≡ length lines.now }
        requires closed { AreClosed marks.items inputs 0 (logged_from (inputs + 1) lines.now) }
        ensures { result.lines ≡ all_renumbered inputs (all_marked inputs lines.now marks.items) }
    {
        Trimming {
            alloc,
            inputs,
            lines,
            marks,
            ids: Vec::new(alloc),
            next_id: inputs + 1,
        }
    }

    /// Passes the next line of the log, and appends its text if the empty clause needs it; false where all are passed.
    ///
    /// The only error is want of memory, behind which `out` and what is left are as before.
    /// O(number of literals and hints of the line). Memory: 8 bytes, and the line.
    pub fn write_next(&mut self, out: &mut Vec<u8>) -> Result<bool, AllocError>
        ensures text { OnOk result (Writes self.old.lines self.new.lines out.old.items out.new.items) }
        ensures more { IfOk result (λ more. more ≡ true → self.old.places ≡ self.new.places + 1) }
        ensures last { IfOk result (λ more. more ≡ false → self.new.lines ≡ []) }
        ensures same { OnErr result (self.new ≡ self.old) }
        ensures err { OnErr result (out.new.items ≡ out.old.items) }
    {
        if self.ids.len() >= self.lines.len() {
            return Ok(false);
        }
        self.next_id = pass(
            self.alloc,
            self.inputs,
            self.lines,
            &self.marks,
            &mut self.ids,
            self.next_id,
            out,
        )?;
        Ok(true)
    }
}

/// Appends all lines that are left; where memory is wanting, some of them.
/// O(number of lines, and of literals and hints of the needed ones).
pub(crate) fn write_all(trimming: &mut Trimming, out: &mut Vec<u8>) -> Result<(), AllocError>
    ensures ok { OnOk result (out.new.items ≡ out.old.items ++ written trimming.old.lines) }
    ensures writable { OnOk result (list_all is_writable trimming.old.lines ≡ true) }
    ensures keeps { take (length out.old.items) out.new.items ≡ out.old.items }
{
    while trimming.write_next(out)? {}
    Ok(())
}
