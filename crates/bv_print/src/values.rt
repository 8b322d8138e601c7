//! Values of variables, as reports write them. Pieces are appended in place, and what was appended is cut off again
//! where memory is refused on the way: a text of its own would be copied once more.

ghost use Rattle.std.specs.Prelude.{◌≡◌, ◌++◌, ◌<◌, ◌≤◌, ◌+◌, ◌^◌, codes, length, OnOk, OnErr};
ghost use Rattle.bv_expr.specs.Goal.{AreValues};
ghost use Rattle.bv_print.specs.Values.{Begins, vector_text, truth_text, value_text, assignment_text, further_text, values_text};

use bv_expr::{Goal, Name, Sort, Val};
use bv_value::Bv;
use bvd_text::{push_hex, push_number};
use std::alloc::AllocError;

// Appends a vector's digits and its width.
#[tactic(auto, using(crate::proofs::Fronts::appended, crate::proofs::Fronts::through, crate::proofs::Fronts::unchanged))]
pub(crate) fn push_vector(out: &mut Vec<u8>, vector: &Bv) -> Result<(), AllocError>
    ensures ok { OnOk result (out.new.items ≡ out.old.items ++ vector_text vector.now) }
    ensures err { OnErr result (Begins out.old.items out.new.items) }
{
    let width = vector.width();
    push_hex(out, vector.number(), (width + 3) / 4)?;
    out.extend_from_slice(b"#")?;
    push_number(out, u128::from(width))
}

// Appends the word of a truth.
pub(crate) fn push_truth(out: &mut Vec<u8>, truth: bool) -> Result<(), AllocError>
    ensures ok { OnOk result (out.new.items ≡ out.old.items ++ truth_text truth) }
    ensures err { OnErr result (out.new.items ≡ out.old.items) }
{
    if truth {
        out.extend_from_slice(b"true")
    } else {
        out.extend_from_slice(b"false")
    }
}

// Appends a value.
#[tactic(auto, using(crate::proofs::Fronts::appended, crate::proofs::Fronts::through, crate::proofs::Fronts::unchanged))]
fn push_value(out: &mut Vec<u8>, value: &Val) -> Result<(), AllocError>
    ensures ok { OnOk result (out.new.items ≡ out.old.items ++ value_text value.now) }
    ensures err { OnErr result (Begins out.old.items out.new.items) }
{
    match value {
        Val::Truth(truth) => push_truth(out, *truth),
        Val::Vector(vector) => push_vector(out, vector),
    }
}

// Appends a variable's name and its value.
#[tactic(auto, using(crate::proofs::Fronts::appended, crate::proofs::Fronts::through, crate::proofs::Fronts::unchanged))]
fn push_assignment(out: &mut Vec<u8>, name: &Name, value: &Val) -> Result<(), AllocError>
    ensures ok { OnOk result (out.new.items ≡ out.old.items ++ assignment_text name.now value.now) }
    ensures err { OnErr result (Begins out.old.items out.new.items) }
{
    out.extend_from_slice(name.as_str().as_bytes())?;
    out.extend_from_slice(b" = ")?;
    push_value(out, value)
}

// Appends the assignments of variables behind another one.
#[tactic(auto, using(crate::proofs::Fronts::appended, crate::proofs::Fronts::through, crate::proofs::Fronts::unchanged))]
fn push_further(
    out: &mut Vec<u8>,
    binders: &[(Name, Sort)],
    values: &[Val],
) -> Result<(), AllocError>
    requires { length binders.now ≡ length values.now }
    ensures ok { OnOk result (out.new.items ≡ out.old.items ++ further_text binders.now values.now) }
    ensures err { OnErr result (Begins out.old.items out.new.items) }
{
    'variables: for (at, (name, _sort)) in binders.iter().enumerate() {
        out.extend_from_slice(b", ")?;
        push_assignment(out, name, &values[at])?;
    }
    Ok(())
}

// Appends the assignments of variables.
#[tactic(auto, using(crate::proofs::Fronts::appended, crate::proofs::Fronts::through, crate::proofs::Fronts::unchanged))]
fn push_assignments(
    out: &mut Vec<u8>,
    binders: &[(Name, Sort)],
    values: &[Val],
) -> Result<(), AllocError>
    requires { length binders.now ≡ length values.now }
    ensures ok { OnOk result (out.new.items ≡ out.old.items ++ values_text binders.now values.now) }
    ensures err { OnErr result (Begins out.old.items out.new.items) }
{
    let Some((first, binders)) = binders.split_first() else {
        return Ok(());
    };
    let Some((value, values)) = values.split_first() else {
        return Ok(());
    };
    push_assignment(out, &first.0, value)?;
    push_further(out, binders, values)
}

/// Appends the values of a goal's variables, as reports write them: `x = 0xff#8` or `a = true` for each variable in
/// order, joined by `, `, and nothing where there is no variable. Where memory is refused, nothing is appended.
///
/// Takes time by the number of bytes that it appends.
#[tactic(auto, using(crate::proofs::Fronts::cut_back))]
pub fn print_values(goal: &Goal, values: &[Val], out: &mut Vec<u8>) -> Result<(), AllocError>
    requires { AreValues goal.now.binders values.now }
    ensures ok { OnOk result (out.new.items ≡ out.old.items ++ values_text goal.now.binders values.now) }
    ensures err { OnErr result (out.new.items ≡ out.old.items) }
{
    let start = out.len();
    let printed = push_assignments(out, goal.binders.as_slice(), values);
    if printed.is_err() {
        out.truncate(start);
    }
    printed
}
