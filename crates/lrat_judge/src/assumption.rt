//! Assuming that a clause's literals are false, which is how the judging of an addition and of a group begins.

ghost use Rattle.std.specs.Prelude.{◌≡◌, List, take, length, Some, IfOk, IsTrue};
ghost use Rattle.sat_form.specs.Literals.{Literal};
ghost use Rattle.lrat_judge.specs.Marked.{Same};
ghost use Rattle.lrat_judge.specs.Assumed.{Assumes, rest_of};

use crate::marks::Marks;
use sat_form::Lit;
use std::alloc::AllocError;

/// Whether this is the literal that is left out.
fn is_left_out(left_out: &Option<Lit>, lit: Lit) -> bool
    ensures yes { IsTrue result → left_out.now ≡ Some lit }
    ensures no { left_out.now ≡ Some lit → IsTrue result }
{
    match left_out {
        Some(other) => *other == lit,
        None => false,
    }
}

/// Assumes that a clause's literals are false, but one that may be left out. Answers false where one of them is true or
/// two are opposite; then some may be assigned, as after want of memory. O(length of the clause).
pub(crate) fn assume(
    marks: &mut Marks,
    clause: &[Lit],
    left_out: Option<Lit>,
) -> Result<bool, AllocError>
    ensures assumed { IfOk result (λ assumed. (a : List Literal) → Same marks.old a → Assumes marks.new a (rest_of left_out clause.now) assumed) }
    ensures keeps { take (length marks.old) marks.new ≡ marks.old }
{
    for lit in clause {
        if is_left_out(&left_out, *lit) {
            continue;
        }
        if marks.is_true(*lit) {
            return Ok(false);
        }
        marks.falsify(*lit)?;
    }
    Ok(true)
}
