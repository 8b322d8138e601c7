//! The lines of a log without their ids, kept flat: the clauses in one list of literals and the hints in one list of ids,
//! each with its ends, so that a line costs no allocation of its own.

ghost use Rattle.std.specs.Prelude.{◌++◌, ◌<◌, ◌≤◌, ◌∷◌, ◌≡◌, [], true, get_or, length, slice_range, take, OnErr, OnOk};
ghost use Rattle.sat_form.specs.Flat.{are_ends};
ghost use Rattle.lrat_trim.specs.Flat.{no_line};

use sat_form::{Clauses, Lit};
use std::alloc::{AllocError, Global};
use std::marker::Model;

/// Clauses with their hints, in order.
#[derive(Drop)]
pub struct Lines {
    clauses: Clauses,
    hints: Vec<u32>,
    ends: Vec<usize>,
}

impl Model for Lines {
    ghost use Rattle.std.specs.Prelude.{◌≡◌, true, List, length};
    ghost use Rattle.sat_form.specs.Flat.{are_ends};
    ghost use Rattle.lrat_trim.specs.Derivation.{LogLine};
    ghost use Rattle.lrat_trim.specs.Flat.{paired, pieces};

    ghost Value = { List LogLine };

    ghost view = { λ l. paired l.clauses (pieces 0 l.ends.items l.hints.items) };

    ghost invariant = { λ l. (length l.clauses ≡ length l.ends.items) × (are_ends 0 l.ends.items (length l.hints.items) ≡ true) };
}

/// Appends ids; where memory is wanting, some of them. An id above 2^32 - 1 counts as want of memory: so many clauses take
/// more than 32 gigabytes by their ends alone.
fn append_ids(ids: &[u64], out: &mut Vec<u32>) -> Result<(), AllocError>
    ensures ok { OnOk result (out.new.items ≡ out.old.items ++ ids.now) }
    ensures keeps { take (length out.old.items) out.new.items ≡ out.old.items }
{
    for id in ids {
        let Ok(id) = u32::try_from(*id) else {
            return Err(AllocError);
        };
        out.push(id)?;
    }
    Ok(())
}

/// Appends ids and the place behind the last one; after a refusal neither.
fn push_piece(ids: &[u64], all: &mut Vec<u32>, ends: &mut Vec<usize>) -> Result<(), AllocError>
    ensures ids { OnOk result (all.new.items ≡ all.old.items ++ ids.now) }
    ensures end { OnOk result (ends.new.items ≡ ends.old.items ++ length all.new.items ∷ []) }
    ensures err_ids { OnErr result (all.new.items ≡ all.old.items) }
    ensures err_end { OnErr result (ends.new.items ≡ ends.old.items) }
{
    let size = all.len();
    if let Err(refused) = append_ids(ids, all) {
        all.truncate(size);
        return Err(refused);
    }
    if let Err(refused) = ends.push(all.len()) {
        all.truncate(size);
        return Err(AllocError::from(refused));
    }
    Ok(())
}

/// Where the ids of the line at a place begin.
fn begin(ends: &[usize], at: usize) -> usize
    requires { at ≤ length ends.now }
    ensures { result ≡ get_or (0 ∷ ends.now) at 0 }
{
    if at == 0 { 0 } else { ends[at - 1] }
}

/// The ids of the line at a place.
fn piece<'a>(ids: &'a [u32], ends: &[usize], at: usize) -> &'a [u32]
    requires place { at < length ends.now }
    requires ends { are_ends 0 ends.now (length ids.now) ≡ true }
    ensures { result.now ≡ slice_range ids.now (get_or (0 ∷ ends.now) at 0) (get_or ends.now at 0) }
{
    let from = begin(ends, at);
    let front = ids.split_at(ends[at]).0;
    front.split_at(from).1
}

impl Lines {
    /// No line. O(1), and it takes no memory.
    pub(crate) fn new(alloc: Global) -> Lines
        ensures { result ≡ [] }
    {
        Lines {
            clauses: Clauses::new(alloc),
            hints: Vec::new(alloc),
            ends: Vec::new(alloc),
        }
    }

    /// Adds a line at the end; after a refusal nothing has changed. O(number of literals and hints), amortised.
    pub(crate) fn push(&mut self, lits: &[Lit], hints: &[u64]) -> Result<(), AllocError>
        ensures ok { OnOk result (self.new ≡ self.old ++ record { lits = lits.now; hints = hints.now } ∷ []) }
        ensures err { OnErr result (self.new ≡ self.old) }
    {
        let size = self.hints.len();
        let count = self.ends.len();
        push_piece(hints, &mut self.hints, &mut self.ends)?;
        match self.clauses.push(lits) {
            Ok(()) => Ok(()),
            Err(refused) => {
                self.hints.truncate(size);
                self.ends.truncate(count);
                Err(refused)
            }
        }
    }

    /// How many lines there are. O(1).
    pub(crate) fn len(&self) -> usize
        ensures { result ≡ length self.now }
    {
        self.ends.len()
    }

    /// The literals and the hints of the line at a place. O(1).
    pub(crate) fn line(&self, at: usize) -> (&[Lit], &[u32])
        requires { at < length self.now }
        ensures { get_or self.now at no_line ≡ record { lits = result.0.now; hints = result.1.now } }
    {
        match self.clauses.get(at) {
            Some(lits) => (lits, piece(&self.hints, &self.ends, at)),
            None => unreachable!(),
        }
    }
}
