//! Operands that are 0, 1, all ones, or equal.

ghost use Rattle.std.specs.Prelude.{◌≡◌, option_map};
ghost use Rattle.bv_expr.specs.Term.{binary};
ghost use Rattle.bv_normal.specs.Constants as constant;
ghost use Rattle.bv_normal.specs.Fitting.{gives, beside, the_one, first_fit};
ghost use Rattle.bv_normal.specs.Operands as rule;
ghost use Rattle.bv_normal.specs.Rewrites.{of_two};

use crate::constants::{is_all_ones, is_number};
use crate::rewrites::{Operand, Rewrite};
use crate::same_terms::same;
use bv_expr::{Binary, Expr};

#[tactic(auto, unfolding(crate::specs::Operands::equal_cancelled))]
fn equal_cancelled(op: Binary, x: &Expr, y: &Expr) -> Option<Operand>
    ensures { option_map (of_two x.now y.now) result ≡ rule.equal_cancelled (binary op x.now y.now) }
{
    match op {
        Binary::Sub | Binary::Xor => same(x, y).then_some(Operand::Left(Rewrite::Number(0))),
        _ => None,
    }
}

// The other side, where one side is this number.
fn beside_number(n: u128, x: &Expr, y: &Expr) -> Option<Operand>
    ensures { option_map (of_two x.now y.now) result ≡ beside (constant.is_number n) x.now y.now }
{
    if is_number(n, y) {
        Some(Operand::Left(Rewrite::Itself))
    } else if is_number(n, x) {
        Some(Operand::Right(Rewrite::Itself))
    } else {
        None
    }
}

#[tactic(auto, unfolding(crate::specs::Operands::zero_dropped))]
fn zero_dropped(op: Binary, x: &Expr, y: &Expr) -> Option<Operand>
    ensures { option_map (of_two x.now y.now) result ≡ rule.zero_dropped (binary op x.now y.now) }
{
    match op {
        Binary::Add | Binary::Or | Binary::Xor => beside_number(0, x, y),
        Binary::Sub => is_number(0, y).then_some(Operand::Left(Rewrite::Itself)),
        _ => None,
    }
}

// The side that is 0.
fn the_zero(x: &Expr, y: &Expr) -> Option<Operand>
    ensures { option_map (of_two x.now y.now) result ≡ the_one (constant.is_number 0) x.now y.now }
{
    if is_number(0, y) {
        Some(Operand::Right(Rewrite::Itself))
    } else if is_number(0, x) {
        Some(Operand::Left(Rewrite::Itself))
    } else {
        None
    }
}

#[tactic(auto, unfolding(crate::specs::Operands::zero_kept))]
fn zero_kept(op: Binary, x: &Expr, y: &Expr) -> Option<Operand>
    ensures { option_map (of_two x.now y.now) result ≡ rule.zero_kept (binary op x.now y.now) }
{
    match op {
        Binary::And | Binary::Mul => the_zero(x, y),
        _ => None,
    }
}

// The other side, where one side is all ones.
fn beside_ones(x: &Expr, y: &Expr) -> Option<Operand>
    ensures { option_map (of_two x.now y.now) result ≡ beside constant.is_all_ones x.now y.now }
{
    if is_all_ones(y) {
        Some(Operand::Left(Rewrite::Itself))
    } else if is_all_ones(x) {
        Some(Operand::Right(Rewrite::Itself))
    } else {
        None
    }
}

#[tactic(auto, unfolding(crate::specs::Operands::one_dropped))]
fn one_dropped(op: Binary, x: &Expr, y: &Expr) -> Option<Operand>
    ensures { option_map (of_two x.now y.now) result ≡ rule.one_dropped (binary op x.now y.now) }
{
    match op {
        Binary::And => beside_ones(x, y),
        Binary::Mul => beside_number(1, x, y),
        _ => None,
    }
}

// The side that is all ones.
fn the_ones(x: &Expr, y: &Expr) -> Option<Operand>
    ensures { option_map (of_two x.now y.now) result ≡ the_one constant.is_all_ones x.now y.now }
{
    if is_all_ones(y) {
        Some(Operand::Right(Rewrite::Itself))
    } else if is_all_ones(x) {
        Some(Operand::Left(Rewrite::Itself))
    } else {
        None
    }
}

#[tactic(auto, unfolding(crate::specs::Operands::ones_kept))]
fn ones_kept(op: Binary, x: &Expr, y: &Expr) -> Option<Operand>
    ensures { option_map (of_two x.now y.now) result ≡ rule.ones_kept (binary op x.now y.now) }
{
    match op {
        Binary::Or => the_ones(x, y),
        _ => None,
    }
}

#[tactic(auto, unfolding(crate::specs::Operands::equal_joined))]
fn equal_joined(op: Binary, x: &Expr, y: &Expr) -> Option<Operand>
    ensures { option_map (of_two x.now y.now) result ≡ rule.equal_joined (binary op x.now y.now) }
{
    match op {
        Binary::And | Binary::Or => same(x, y).then_some(Operand::Left(Rewrite::Itself)),
        _ => None,
    }
}

// What the first of these rules that fits makes of the operator on these parts.
#[tactic(auto, unfolding(crate::specs::Fitting::first_fit))]
pub(crate) fn operands(op: Binary, x: &Expr, y: &Expr) -> Option<Operand>
    ensures { option_map (of_two x.now y.now) result ≡ first_fit rule.operand_rules (binary op x.now y.now) }
{
    if let Some(rewrite) = equal_cancelled(op, x, y) {
        return Some(rewrite);
    }
    if let Some(rewrite) = zero_dropped(op, x, y) {
        return Some(rewrite);
    }
    if let Some(rewrite) = zero_kept(op, x, y) {
        return Some(rewrite);
    }
    if let Some(rewrite) = one_dropped(op, x, y) {
        return Some(rewrite);
    }
    if let Some(rewrite) = ones_kept(op, x, y) {
        return Some(rewrite);
    }
    equal_joined(op, x, y)
}
