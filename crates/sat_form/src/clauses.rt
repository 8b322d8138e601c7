//! Lists of clauses, kept in one list of literals with the clauses' ends, so that a clause costs no allocation of
//! its own; contracts see a list of lists.

ghost use Rattle.std.specs.Prelude.{IfOk, ◌++◌, ◌∷◌, ◌≡◌, ◌<◌, ◌≤◌, [], true, get_or, slice_range, length, slice_get, OnErr, OnOk, IsTrue, ◌↔◌};
ghost use Rattle.std.specs.Option.{option_copied};
ghost use Rattle.sat_form.specs.Flat.{are_ends};

use crate::lit::Lit;
use std::alloc::{AllocError, Global};
use std::marker::Model;

/// A list of clauses, each a list of literals in the order in which they were written.
#[derive(Drop)]
pub struct Clauses {
    lits: Vec<Lit>,
    ends: Vec<usize>,
}

impl Model for Clauses {
    ghost use Rattle.std.specs.Prelude.{◌≡◌, true, List, length};
    ghost use Rattle.sat_form.specs.Literals.{Literal};
    ghost use Rattle.sat_form.specs.Flat.{pieces, are_ends};

    ghost Value = { List (List Literal) };

    ghost view = { λ c. pieces 0 c.ends.items c.lits.items };

    ghost invariant = { λ c. are_ends 0 c.ends.items (length c.lits.items) ≡ true };
}

/// Where the clause at a place begins.
fn begin(ends: &[usize], at: usize) -> usize
    requires { at ≤ length ends.now }
    ensures { result ≡ get_or (0 ∷ ends.now) at 0 }
{
    if at == 0 { 0 } else { ends[at - 1] }
}

/// The literals of the clause at a place.
fn piece<'a>(lits: &'a [Lit], ends: &[usize], at: usize) -> &'a [Lit]
    requires place { at < length ends.now }
    requires ends { are_ends 0 ends.now (length lits.now) ≡ true }
    ensures { result.now ≡ slice_range lits.now (get_or (0 ∷ ends.now) at 0) (get_or ends.now at 0) }
{
    let from = begin(ends, at);
    let front = lits.split_at(ends[at]).0;
    front.split_at(from).1
}

impl Clauses {
    /// No clause. O(1), and it takes no memory.
    pub fn new(alloc: Global) -> Clauses
        ensures { result ≡ [] }
    {
        Clauses {
            lits: Vec::new(alloc),
            ends: Vec::new(alloc),
        }
    }

    /// Adds a clause at the end; after a refusal the list is unchanged. O(length of the clause), amortised.
    pub fn push(&mut self, lits: &[Lit]) -> Result<(), AllocError>
        ensures ok { OnOk result (self.new ≡ self.old ++ lits.now ∷ []) }
        ensures err { OnErr result (self.new ≡ self.old) }
    {
        let before = self.lits.len();
        self.lits.extend_from_slice(lits)?;
        let end = self.lits.len();
        if let Err(refused) = self.ends.push(end) {
            self.lits.truncate(before);
            return Err(AllocError::from(refused));
        }
        Ok(())
    }

    /// How many clauses there are. O(1).
    pub fn len(&self) -> usize
        ensures { result ≡ length self.now }
    {
        self.ends.len()
    }

    /// Whether there is none. O(1).
    pub fn is_empty(&self) -> bool
        ensures { IsTrue result ↔ (self.now ≡ []) }
    {
        self.len() == 0
    }

    /// The clause at a place, from 0; `None` exactly where `at` is at least `len`. O(1).
    pub fn get(&self, at: usize) -> Option<&[Lit]>
        ensures { option_copied result ≡ slice_get self.now at }
    {
        if at >= self.len() {
            return None;
        }
        Some(piece(&self.lits, &self.ends, at))
    }

    /// The same clauses once more. O(number of literals and clauses).
    pub fn copy(&self, alloc: Global) -> Result<Clauses, AllocError>
        ensures { IfOk result (λ clauses. clauses ≡ self.now) }
    {
        let lits = Vec::from_slice(alloc, &self.lits)?;
        let ends = Vec::from_slice(alloc, &self.ends)?;
        Ok(Clauses { lits, ends })
    }
}
