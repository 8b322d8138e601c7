//! What the plain machine reads off its trail.

ghost use Rattle.std.specs.Prelude.{◌≡◌, ◌||◌};
ghost use Rattle.std.specs.List.{list_all};
ghost use Rattle.sat_form.specs.Assignment as assignment;
ghost use Rattle.sat_form.specs.Literals.{same_literal};
ghost use Rattle.search_learn.specs.Trail as trails;

use sat_form::Lit;
use search_learn::Trail;

/// Whether a clause is false.
pub fn clause_false(trail: &Trail, lits: &[Lit]) -> bool
    ensures { result ≡ trails.clause_false trail.now.steps lits.now }
{
    for lit in lits {
        if !trail.is_false(*lit) {
            return false;
        }
    }
    true
}

/// Whether all literals but one are false.
pub fn others_false(trail: &Trail, lits: &[Lit], but: Lit) -> bool
    ensures { result ≡ list_all (λ k. same_literal k but || assignment.is_false (trails.assigned trail.now.steps) k) lits.now }
{
    for lit in lits {
        let same = lit.var() == but.var() && lit.positive() == but.positive();
        if !same && !trail.is_false(*lit) {
            return false;
        }
    }
    true
}

/// The literal of a unit clause.
pub fn unit_literal(trail: &Trail, lits: &[Lit]) -> Option<Lit>
    ensures { result ≡ trails.unit_literal trail.now.steps lits.now }
{
    for (at, lit) in lits.iter().enumerate() {
        if !trail.is_false(*lit) {
            let (_, rest) = lits.split_at(at + 1);
            let free = !trail.is_true(*lit);
            if free && others_false(trail, rest, *lit) {
                return Some(*lit);
            }
            return None;
        }
    }
    None
}
