//! The truth of one clause: apart from the formula's file, so that its clauses may cite the shape of a clause.

ghost use Rattle.std.specs.Prelude.{◌≡◌, true, length};
ghost use Rattle.sat_form.specs.Shape.{are_within};
ghost use Rattle.sat_form.specs.Truth.{clause_true, value_of};

use crate::lit::Lit;

/// Whether one of the literals is true, where `values[i]` is that of variable i + 1.
pub fn is_true(clause: &[Lit], values: &[bool]) -> bool
    requires { are_within (length values.now) clause.now ≡ true }
    ensures { result ≡ clause_true (value_of values.now) clause.now }
{
    for lit in clause {
        if values[lit.var() as usize - 1] == lit.positive() {
            return true;
        }
    }
    false
}
