//! What the plain machine finds among its clauses.

ghost use Rattle.std.specs.Prelude.{◌+◌, ◌++◌, ◌<◌, ◌^◌, ◌≡◌, ◌≤◌, is_none, length, not, true};
ghost use Rattle.std.specs.List.{find, list_any, list_all, range_with_len};
ghost use Rattle.std.specs.Option.{option_map};
ghost use Rattle.search_learn.specs.Machine as machine;
ghost use Rattle.search_learn.specs.Machine.{numbered};
ghost use Rattle.search_learn.specs.Trail as trails;

use crate::scan;
use sat_form::{Clauses, Cnf, Lit};
use search_learn::{Trail, clause_at};

/// The least id of a clause that is false.
pub fn false_clause(clauses: &Cnf, learnt: &Clauses, trail: &Trail) -> Option<u64>
    requires room { length clauses.now.clauses + length learnt.now < 2 ^ 63 }
    ensures { result ≡ option_map (λ c. c.id) (find (λ c. trails.clause_false trail.now.steps c.lits) (numbered 1 (clauses.now.clauses ++ learnt.now))) }
{
    let count = clauses.clauses.len() + learnt.len();
    for place in 0..count {
        if scan::clause_false(trail, clause_at(clauses, learnt, place)) {
            return Some(place as u64 + 1);
        }
    }
    None
}

/// Whether some clause is unit.
pub fn has_unit(clauses: &Cnf, learnt: &Clauses, trail: &Trail) -> bool
    requires room { length clauses.now.clauses + length learnt.now < 2 ^ 63 }
    ensures { result ≡ list_any (λ c. not (is_none (trails.unit_literal trail.now.steps c.lits))) (numbered 1 (clauses.now.clauses ++ learnt.now)) }
{
    let count = clauses.clauses.len() + learnt.len();
    for place in 0..count {
        if scan::unit_literal(trail, clause_at(clauses, learnt, place)).is_some() {
            return true;
        }
    }
    false
}

/// Whether all variables are assigned.
pub fn all_assigned(vars: u32, trail: &Trail) -> bool
    requires { vars < 2 ^ 31 }
    ensures { result ≡ list_all (λ v. trails.is_assigned trail.now.steps (record { var = v; positive = true })) (range_with_len 1 vars) }
{
    for index in 0..vars {
        if !trail.is_assigned(Lit::new(index + 1, true)) {
            return false;
        }
    }
    true
}

/// Whether a variable is unassigned and of greater score than the best so far, 0 for none.
fn is_better(trail: &Trail, scores: &[u128], best: u32, var: u32) -> bool
    requires var { (0 < var) × (var ≤ length scores.now) × (length scores.now < 2 ^ 31) }
    requires best { best ≤ length scores.now }
    ensures { result ≡ machine.is_better trail.now.steps scores.now best var }
{
    !trail.is_assigned(Lit::new(var, true))
        && (best == 0 || scores[best as usize - 1] < scores[var as usize - 1])
}

/// The unassigned variable of greatest score, then of least number; 0 where there is none.
pub fn choose(vars: u32, trail: &Trail, scores: &[u128]) -> u32
    requires vars { vars < 2 ^ 31 }
    requires scores { length scores.now ≡ vars }
    ensures { (m : machine.State) → m.trail ≡ trail.now.steps → m.scores ≡ scores.now → result ≡ machine.choose m 0 (range_with_len 1 vars) }
{
    let mut best = 0;
    for index in 0..vars {
        if is_better(trail, scores, best, index + 1) {
            best = index + 1;
        }
    }
    best
}
