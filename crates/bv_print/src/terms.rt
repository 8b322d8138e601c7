//! Terms in canonical text. The text of an operation is appended piece by piece: what stands before its first part, the
//! part, what stands behind it, and the other part or the numbers that it keeps.

ghost use Rattle.std.specs.Prelude.{◌≡◌, ◌++◌, codes, decimal, OnOk, OnErr};
ghost use Rattle.bv_print.specs.Spelling.{kept_numbers};
ghost use Rattle.bv_print.specs.Canonical.{choice_text, is_constant, name_at, numbers_text, term_text};
ghost use Rattle.bv_print.specs.Pieces.{form_of, text_before, text_behind};
ghost use Rattle.bv_print.specs.Values.{Begins};

use crate::spelling::{Spelling, binary_spelling, unary_spelling};
use crate::values::{push_truth, push_vector};
use bv_expr::{Expr, Name, Shape, Sort, Unary, shape_of};
use bvd_text::push_number;
use std::alloc::AllocError;

// Whether the term is a constant.
fn is_constant(term: &Expr) -> bool
    ensures { result ≡ is_constant term.now }
{
    match shape_of(term.node()) {
        Shape::Constant(_) => true,
        Shape::Variable(_, _) | Shape::Truth(_) | Shape::TruthVariable(_) => false,
        Shape::Unary(_, _) | Shape::Binary(_, _, _) => false,
        Shape::Choice(_, _, _) | Shape::TruthChoice(_, _, _) => false,
    }
}

// Appends the name of a variable.
fn push_name(out: &mut Vec<u8>, binders: &[(Name, Sort)], variable: u8) -> Result<(), AllocError>
    ensures ok { OnOk result (out.new.items ≡ out.old.items ++ name_at binders.now variable) }
    ensures err { OnErr result (out.new.items ≡ out.old.items) }
{
    match binders.get(usize::from(variable)) {
        Some((name, _sort)) => out.extend_from_slice(name.as_str().as_bytes()),
        None => Ok(()),
    }
}

// Appends a number behind a space.
#[tactic(auto, using(crate::proofs::Fronts::appended, crate::proofs::Fronts::through, crate::proofs::Fronts::unchanged))]
fn push_behind_space(out: &mut Vec<u8>, number: u128) -> Result<(), AllocError>
    ensures ok { OnOk result (out.new.items ≡ out.old.items ++ codes " " ++ decimal number) }
    ensures err { OnErr result (Begins out.old.items out.new.items) }
{
    out.extend_from_slice(b" ")?;
    push_number(out, number)
}

// Appends the numbers that an operator keeps, each behind a space.
#[tactic(auto, using(crate::proofs::Fronts::appended, crate::proofs::Fronts::through, crate::proofs::Fronts::unchanged))]
fn push_numbers(out: &mut Vec<u8>, op: Unary) -> Result<(), AllocError>
    ensures ok { OnOk result (out.new.items ≡ out.old.items ++ numbers_text (kept_numbers op)) }
    ensures err { OnErr result (Begins out.old.items out.new.items) }
{
    match op {
        Unary::Not | Unary::Neg | Unary::Msb | Unary::TNot => Ok(()),
        Unary::ShlBy(number) | Unary::LshrBy(number) | Unary::AshrBy(number) => {
            push_behind_space(out, number)
        }
        Unary::RotL(number) | Unary::RotR(number) | Unary::Bit(number) => {
            push_behind_space(out, number)
        }
        Unary::Extract(start, len) => {
            push_behind_space(out, start)?;
            push_behind_space(out, u128::from(len))
        }
        Unary::SetWidth(width) | Unary::SignExtend(width) => {
            push_behind_space(out, u128::from(width))
        }
    }
}

// Appends what an operation has before its first part. The flag tells that the part is a constant.
#[tactic(auto, using(crate::proofs::Fronts::appended, crate::proofs::Fronts::through, crate::proofs::Fronts::unchanged))]
fn push_before(out: &mut Vec<u8>, spelling: Spelling, of_constant: bool) -> Result<(), AllocError>
    ensures ok { OnOk result (out.new.items ≡ out.old.items ++ text_before (form_of spelling) of_constant) }
    ensures err { OnErr result (Begins out.old.items out.new.items) }
{
    match spelling {
        Spelling::Prefix(sign) => {
            out.extend_from_slice(b"(")?;
            out.extend_from_slice(sign.as_bytes())
        }
        Spelling::Method(_) if of_constant => out.extend_from_slice(b"(("),
        Spelling::Infix(_) | Spelling::Method(_) => out.extend_from_slice(b"("),
    }
}

// Appends what an operation has behind its first part, up to its sign's or method's end.
#[tactic(auto, using(crate::proofs::Fronts::appended, crate::proofs::Fronts::through, crate::proofs::Fronts::unchanged))]
fn push_behind(out: &mut Vec<u8>, spelling: Spelling, of_constant: bool) -> Result<(), AllocError>
    ensures ok { OnOk result (out.new.items ≡ out.old.items ++ text_behind (form_of spelling) of_constant) }
    ensures err { OnErr result (Begins out.old.items out.new.items) }
{
    match spelling {
        Spelling::Prefix(_) => Ok(()),
        Spelling::Infix(sign) => {
            out.extend_from_slice(b" ")?;
            out.extend_from_slice(sign.as_bytes())
        }
        Spelling::Method(name) => {
            out.extend_from_slice(if of_constant { b")." } else { b"." })?;
            out.extend_from_slice(name.as_bytes())
        }
    }
}

// Appends a choice.
#[cycle(terms)]
#[tactic(auto, using(crate::proofs::Fronts::appended, crate::proofs::Fronts::through, crate::proofs::Fronts::unchanged))]
fn push_choice(
    out: &mut Vec<u8>,
    binders: &[(Name, Sort)],
    c: &Expr,
    x: &Expr,
    y: &Expr,
) -> Result<(), AllocError>
    ensures ok { OnOk result (out.new.items ≡ out.old.items ++ choice_text (term_text binders.now c.now) (term_text binders.now x.now) (term_text binders.now y.now)) }
    ensures err { OnErr result (Begins out.old.items out.new.items) }
{
    out.extend_from_slice(b"(if ")?;
    push_term(out, binders, c)?;
    out.extend_from_slice(b" then ")?;
    push_term(out, binders, x)?;
    out.extend_from_slice(b" else ")?;
    push_term(out, binders, y)?;
    out.extend_from_slice(b")")
}

// Appends a term.
#[cycle(terms)]
#[tactic(auto, using(crate::proofs::Fronts::appended, crate::proofs::Fronts::through, crate::proofs::Fronts::unchanged))]
pub fn push_term(out: &mut Vec<u8>, binders: &[(Name, Sort)], term: &Expr) -> Result<(), AllocError>
    ensures ok { OnOk result (out.new.items ≡ out.old.items ++ term_text binders.now term.now) }
    ensures err { OnErr result (Begins out.old.items out.new.items) }
{
    match shape_of(term.node()) {
        Shape::Constant(value) => push_vector(out, &value),
        Shape::Variable(number, _) => push_name(out, binders, number),
        Shape::Truth(value) => push_truth(out, value),
        Shape::TruthVariable(number) => push_name(out, binders, number),
        Shape::Unary(op, x) => {
            push_before(out, unary_spelling(op), is_constant(x))?;
            push_term(out, binders, x)?;
            push_behind(out, unary_spelling(op), is_constant(x))?;
            push_numbers(out, op)?;
            out.extend_from_slice(b")")
        }
        Shape::Binary(op, x, y) => {
            push_before(out, binary_spelling(op), is_constant(x))?;
            push_term(out, binders, x)?;
            push_behind(out, binary_spelling(op), is_constant(x))?;
            out.extend_from_slice(b" ")?;
            push_term(out, binders, y)?;
            out.extend_from_slice(b")")
        }
        Shape::Choice(c, x, y) => push_choice(out, binders, c, x, y),
        Shape::TruthChoice(c, x, y) => push_choice(out, binders, c, x, y),
    }
}
