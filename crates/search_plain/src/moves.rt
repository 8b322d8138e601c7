//! What a round of the plain machine puts on the trail, and how it changes the scores.

ghost use Rattle.std.specs.Prelude.{◌*◌, ◌+◌, ◌++◌, ◌-◌, ◌<◌, ◌^◌, ◌≡◌, ◌≤◌, ℕ, All, IfOk, length, get_or};
ghost use Rattle.search_learn.specs.Cases.{times, unit_entries};
ghost use Rattle.search_learn.specs.Machine as machine;
ghost use Rattle.search_learn.specs.Machine.{numbered};

use crate::scan;
use sat_form::{Clauses, Cnf, Lit};
use search_learn::{Step, Trail, clause_at};
use std::alloc::{AllocError, Global};

/// The entries of a round: the literal of each unit clause, in rising id.
pub fn units(
    alloc: Global,
    clauses: &Cnf,
    learnt: &Clauses,
    trail: &Trail,
    level: u32,
) -> Result<Vec<Step>, AllocError>
    requires room { length clauses.now.clauses + length learnt.now < 2 ^ 63 }
    ensures { IfOk result (λ entries. entries.items ≡ unit_entries trail.now.steps level (numbered 1 (clauses.now.clauses ++ learnt.now))) }
{
    let count = clauses.clauses.len() + learnt.len();
    let mut entries = Vec::new(alloc);
    for place in 0..count {
        if let Some(lit) = scan::unit_literal(trail, clause_at(clauses, learnt, place)) {
            entries.push(Step {
                lit,
                level,
                reason: place as u64 + 1,
            })?;
        }
    }
    Ok(entries)
}

/// Raises the score of each variable of a clause.
pub fn raise(scores: &mut [u128], lits: &[Lit], by: u64)
    requires within { All (λ l. l.var ≤ length scores.old) lits.now }
    requires room { (v : ℕ) → 0 < v → get_or scores.old (v - 1) 0 + by * times v lits.now < 2 ^ 128 }
    ensures { scores.new ≡ machine.raise by scores.old lits.now }
{
    for lit in lits {
        let place = lit.var() as usize - 1;
        scores[place] += by as u128;
    }
}
