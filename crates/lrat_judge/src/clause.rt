//! Questions about one clause, each answered by one pass over its literals.

ghost use Rattle.std.specs.Prelude.{◌≡◌};
ghost use Rattle.std.specs.List.{list_any};
ghost use Rattle.sat_form.specs.Literals.{member};
ghost use Rattle.sat_form.specs.Assignment.{is_true};
ghost use Rattle.lrat_lines.specs.Judge.{others};

use crate::marks::Marks;
use sat_form::Lit;

/// Whether a clause holds a literal. O(length of the clause).
pub(crate) fn holds(clause: &[Lit], lit: Lit) -> bool
    ensures { result ≡ member clause.now lit }
{
    for other in clause {
        if lit == *other {
            return true;
        }
    }
    false
}

/// Whether a literal of a clause but this one is true. O(length of the clause).
pub(crate) fn has_other_true(marks: &Marks, clause: &[Lit], left_out: Lit) -> bool
    ensures { result ≡ list_any (is_true marks.now) (others clause.now left_out) }
{
    for lit in clause {
        if left_out == *lit {
            continue;
        }
        if marks.is_true(*lit) {
            return true;
        }
    }
    false
}
