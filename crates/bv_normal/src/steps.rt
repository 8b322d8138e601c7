//! One node of normal parts: the first rule that fits is found by reading, and then carried out by moving the parts.

ghost use Rattle.std.specs.Prelude.{◌≡◌, ◌&&◌, false, true, IfOk, Some, option_map, if◌then◌else◌};
ghost use Rattle.bv_expr.specs.Sorts.{IsExpr};
ghost use Rattle.bv_expr.specs.Term.{unary, binary};
ghost use Rattle.bv_normal.specs.Constants.{is_constant};
ghost use Rattle.bv_normal.specs.Fitting.{first_fit};
ghost use Rattle.bv_normal.specs.Normal.{rules, rewritten};
ghost use Rattle.bv_normal.specs.Parts.{choice_of};
ghost use Rattle.bv_normal.specs.Rewrites.{of_one, of_two};

use crate::building::{
    binary_built, choice_built, evaluated, number_like, part, truth, unary_built,
};
use crate::choices::chosen;
use crate::comparisons::comparisons;
use crate::constants::is_constant;
use crate::folding::undone;
use crate::operands::operands;
use crate::quotients::quotients;
use crate::rewrites::{Operand, Rewrite};
use crate::shifts::{shift_by_constant, shift_by_nothing, shift_past_width};
use crate::widths::same_width;
use bv_expr::{Binary, Expr, Unary};
use std::alloc::{AllocError, Global};

// What the first rule that fits makes of the operator on a part that is no constant.
#[tactic(auto, using(crate::proofs::Finding::unary_fit))]
fn unary_rewrite(op: Unary, x: &Expr) -> Option<Rewrite>
    requires { is_constant x.now ≡ false }
    ensures { option_map (of_one x.now) result ≡ first_fit rules (unary op x.now) }
{
    if let Some(rewrite) = undone(op, x) {
        return Some(rewrite);
    }
    if let Some(rewrite) = shift_by_nothing(op, x) {
        return Some(rewrite);
    }
    if let Some(rewrite) = shift_past_width(op, x) {
        return Some(rewrite);
    }
    same_width(op, x)
}

// What the first rule that fits makes of the operator on parts that aren't both constants.
#[tactic(auto, using(crate::proofs::Finding::binary_fit))]
fn binary_rewrite(op: Binary, x: &Expr, y: &Expr) -> Option<Operand>
    requires { is_constant x.now && is_constant y.now ≡ false }
    ensures { option_map (of_two x.now y.now) result ≡ first_fit rules (binary op x.now y.now) }
{
    if let Some(rewrite) = operands(op, x, y) {
        return Some(rewrite);
    }
    if let Some(rewrite) = comparisons(op, x, y) {
        return Some(rewrite);
    }
    if let Some(rewrite) = shift_by_constant(op, x, y) {
        return Some(rewrite);
    }
    quotients(op, x, y)
}

// The term's bits that are set in this number too.
#[tactic(auto, using(crate::proofs::Making::mask_positive, crate::proofs::Making::mask_within))]
fn masked(alloc: Global, n: u128, x: Expr) -> Result<Expr, AllocError>
    requires { IsExpr (of_one x (Rewrite.Masked n)) }
    ensures { IfOk result (λ e. e ≡ of_one x (Rewrite.Masked n)) }
{
    let mask = number_like(&x, n);
    binary_built(alloc, Binary::And, x, mask)
}

#[tactic(auto, using(crate::proofs::Making::number_positive, crate::proofs::Making::number_within))]
fn made(alloc: Global, rewrite: Rewrite, x: Expr) -> Result<Expr, AllocError>
    requires { IsExpr (of_one x rewrite) }
    ensures { IfOk result (λ e. e ≡ of_one x rewrite) }
{
    match rewrite {
        Rewrite::Truth(b) => Ok(truth(b)),
        Rewrite::Number(n) => Ok(number_like(&x, n)),
        Rewrite::Itself => Ok(x),
        Rewrite::Part => Ok(part(x)),
        Rewrite::Under(op) => unary_built(alloc, op, x),
        Rewrite::Masked(n) => masked(alloc, n, x),
    }
}

fn operand_made(alloc: Global, operand: Operand, x: Expr, y: Expr) -> Result<Expr, AllocError>
    requires { IsExpr (of_two x y operand) }
    ensures { IfOk result (λ e. e ≡ of_two x y operand) }
{
    match operand {
        Operand::Left(rewrite) => made(alloc, rewrite, x),
        Operand::Right(rewrite) => made(alloc, rewrite, y),
    }
}

// What becomes of an operator on a normal part.
#[tactic(auto, using(crate::proofs::Making::closed_values, crate::proofs::Finding::constant_rewritten, crate::proofs::Making::found_one, crate::proofs::Finding::none_rewritten))]
pub(crate) fn unary_step(alloc: Global, op: Unary, x: Expr) -> Result<Expr, AllocError>
    requires { IsExpr (unary op x) }
    ensures { IfOk result (λ e. e ≡ rewritten (unary op x)) }
{
    if is_constant(&x) {
        let node = unary_built(alloc, op, x)?;
        return Ok(evaluated(&node));
    }
    match unary_rewrite(op, &x) {
        Some(rewrite) => made(alloc, rewrite, x),
        None => unary_built(alloc, op, x),
    }
}

// Whether both are constants.
fn are_constants(x: &Expr, y: &Expr) -> bool
    ensures { result ≡ is_constant x.now && is_constant y.now }
{
    is_constant(x) && is_constant(y)
}

// What becomes of an operator on two normal parts.
#[tactic(auto, using(crate::proofs::Making::closed_values, crate::proofs::Finding::constant_rewritten, crate::proofs::Making::found_two, crate::proofs::Finding::none_rewritten))]
pub(crate) fn binary_step(alloc: Global, op: Binary, x: Expr, y: Expr) -> Result<Expr, AllocError>
    requires { IsExpr (binary op x y) }
    ensures { IfOk result (λ e. e ≡ rewritten (binary op x y)) }
{
    if are_constants(&x, &y) {
        let node = binary_built(alloc, op, x, y)?;
        return Ok(evaluated(&node));
    }
    match binary_rewrite(op, &x, &y) {
        Some(operand) => operand_made(alloc, operand, x, y),
        None => binary_built(alloc, op, x, y),
    }
}

// Whether all three are constants.
fn all_constants(c: &Expr, x: &Expr, y: &Expr) -> bool
    ensures { result ≡ is_constant c.now && (is_constant x.now && is_constant y.now) }
{
    is_constant(c) && are_constants(x, y)
}

// One of two branches.
fn picked(first: bool, x: Expr, y: Expr) -> Expr
    ensures { result ≡ (if first then x else y) }
{
    if first { x } else { y }
}

// What becomes of a choice of normal parts.
#[tactic(auto, using(crate::proofs::Making::closed_choice, crate::proofs::Making::choice_evaluated, crate::proofs::Making::choice_found, crate::proofs::Making::choice_stays))]
pub(crate) fn choice_step(
    alloc: Global,
    truths: bool,
    c: Expr,
    x: Expr,
    y: Expr,
) -> Result<Expr, AllocError>
    requires { IsExpr (choice_of truths c x y) }
    ensures { IfOk result (λ e. e ≡ rewritten (choice_of truths c x y)) }
{
    if all_constants(&c, &x, &y) {
        let node = choice_built(alloc, truths, c, x, y)?;
        return Ok(evaluated(&node));
    }
    match chosen(&c, &x, &y) {
        Some(first) => Ok(picked(first, x, y)),
        None => choice_built(alloc, truths, c, x, y),
    }
}
