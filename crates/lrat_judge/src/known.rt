//! The clauses that lines may name, in a map by id: lines add and delete them under ids of their own choice.

ghost use Rattle.std.specs.Prelude.{◌≡◌, None, IfOk, OnErr, OnOk};
ghost use Rattle.std.specs.List.{find};
ghost use Rattle.std.specs.Option.{option_copied, option_map};
ghost use Rattle.lrat_lines.specs.Judge.{clause_of, add_clause, delete_clauses, given, judge_missing, split_hints};
ghost use Rattle.lrat_lines.specs.Judge.Cause.{MissingGroup};
ghost use Rattle.lrat_judge.specs.Judged.{cause_shown};
ghost use Rattle.lrat_judge.specs.Named.{is_uncovered};

use crate::cause::Cause;
use crate::marks::Marks;
use crate::missing::{grouped, is_missed};
use sat_form::{Cnf, Lit};
use std::alloc::{AllocError, Global};
use std::collections::{BTreeMap, BTreeSet};
use std::marker::Model;

/// The clauses that lines may name, by id.
#[derive(Drop)]
pub(crate) struct Known {
    clauses: BTreeMap<u64, Vec<Lit>>,
}

impl Model for Known {
    ghost use Rattle.std.specs.Prelude.{map};
    ghost use Rattle.std.specs.Ordering.{nat_cmp};
    ghost use Rattle.std.specs.List.Sorted.{IsStrictlySortedBy};
    ghost use Rattle.std.specs.Map.{keys_of};
    ghost use Rattle.lrat_lines.specs.Judge.{Clauses};

    ghost Value = { Clauses };

    ghost view = { λ k. map (λ e. record { id = e.0; lits = e.1.items }) k.clauses.entries };

    ghost invariant = { λ k. IsStrictlySortedBy nat_cmp (keys_of k.clauses.entries) };
}

impl Known {
    /// A clause by its id. O(log n) for n clauses.
    pub(crate) fn get(&self, id: u64) -> Option<&[Lit]>
        ensures { option_copied result ≡ clause_of self.now id }
    {
        match self.clauses.get(&id) {
            Some(clause) => Some(clause.as_slice()),
            None => None,
        }
    }

    /// Adds a clause under an id that isn't in use; after a refusal the clauses are unchanged. O(log n).
    pub(crate) fn add(&mut self, id: u64, lits: Vec<Lit>) -> Result<(), AllocError>
        requires { clause_of self.old id ≡ None }
        ensures ok { OnOk result (self.new ≡ add_clause self.old id lits.items) }
        ensures err { OnErr result (self.new ≡ self.old) }
    {
        match self.clauses.insert(id, lits) {
            Ok(_) => Ok(()),
            Err(failed) => Err(AllocError::from(failed)),
        }
    }

    /// Deletes the clauses with these ids; an id that isn't in use is passed over. O(log n) for each id.
    pub(crate) fn delete(&mut self, ids: &[u64])
        ensures { self.new ≡ delete_clauses self.old ids.now }
    {
        for id in ids {
            self.clauses.remove(id);
        }
    }

    /// The clauses of a formula, from the id 1 on. O(number of literals, and n log n).
    pub(crate) fn given(alloc: Global, cnf: &Cnf) -> Result<Known, AllocError>
        ensures { IfOk result (λ known. known ≡ given cnf.now.clauses) }
    {
        let mut known = Known {
            clauses: BTreeMap::new(alloc),
        };
        let mut at = 0;
        while let Some(clause) = cnf.clauses.get(at) {
            at += 1;
            known.add(at as u64, Vec::from_slice(alloc, clause)?)?;
        }
        Ok(known)
    }

    /// Refuses a line for the first clause with the negated pivot that isn't named and has no other literal that is true.
    fn uncovered(&self, marks: &Marks, pivot: Lit, named: &BTreeSet<u64>) -> Option<Cause>
        ensures { option_map cause_shown result ≡ option_map (λ e. MissingGroup e.id) (find (is_uncovered marks.now pivot named.now) self.now) }
    {
        for (id, clause) in &self.clauses {
            if is_missed(marks, pivot, named, *id, clause) {
                return Some(Cause::MissingGroup(*id));
            }
        }
        None
    }

    /// Refuses a line for the first clause with the negated pivot that has no group and no other literal that is true.
    /// O(number of hints, and of the literals of all clauses), and for g groups O(log g) for each group and for each
    /// clause with the negated pivot.
    pub(crate) fn missing(
        &self,
        alloc: Global,
        marks: &Marks,
        pivot: Lit,
        groups: &[i64],
    ) -> Result<Option<Cause>, AllocError>
        ensures { IfOk result (λ cause. option_map cause_shown cause ≡ judge_missing self.now marks.now pivot (split_hints groups.now).groups) }
    {
        let named = grouped(alloc, groups)?;
        Ok(self.uncovered(marks, pivot, &named))
    }
}
