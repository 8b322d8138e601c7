//! Products, quotients and remainders by 0, 1 and powers of two.

ghost use Rattle.std.specs.Prelude.{◌≡◌, ◌≤◌, ◌-◌, ◌^◌, option_map};
ghost use Rattle.bv_expr.specs.Term.{binary};
ghost use Rattle.bv_normal.specs.Fitting.{first_fit};
ghost use Rattle.bv_normal.specs.Quotients as rule;
ghost use Rattle.bv_normal.specs.Rewrites.{of_two};

use crate::constants::{exponent, is_number};
use crate::rewrites::{Operand, Rewrite};
use bv_expr::{Binary, Expr, Unary};

// The number whose lowest k bits are set.
fn low_ones(k: u8) -> u128
    requires { k ≤ 127 }
    ensures { result ≡ 2 ^ k - 1 }
{
    (1 << k) - 1
}

#[tactic(auto, unfolding(crate::specs::Quotients::product_by_power))]
fn product_by_power(op: Binary, x: &Expr, y: &Expr) -> Option<Operand>
    ensures { option_map (of_two x.now y.now) result ≡ rule.product_by_power (binary op x.now y.now) }
{
    match op {
        Binary::Mul => match exponent(y) {
            Some(k) => Some(Operand::Left(Rewrite::Under(Unary::ShlBy(u128::from(k))))),
            None => match exponent(x) {
                Some(k) => Some(Operand::Right(Rewrite::Under(Unary::ShlBy(u128::from(k))))),
                None => None,
            },
        },
        _ => None,
    }
}

#[tactic(auto, unfolding(crate::specs::Quotients::division_by_zero))]
fn division_by_zero(op: Binary, x: &Expr, y: &Expr) -> Option<Operand>
    ensures { option_map (of_two x.now y.now) result ≡ rule.division_by_zero (binary op x.now y.now) }
{
    match op {
        Binary::Udiv => is_number(0, y).then_some(Operand::Left(Rewrite::Number(0))),
        Binary::Umod => is_number(0, y).then_some(Operand::Left(Rewrite::Itself)),
        _ => None,
    }
}

#[tactic(auto, unfolding(crate::specs::Quotients::division_by_one))]
fn division_by_one(op: Binary, x: &Expr, y: &Expr) -> Option<Operand>
    ensures { option_map (of_two x.now y.now) result ≡ rule.division_by_one (binary op x.now y.now) }
{
    match op {
        Binary::Udiv => is_number(1, y).then_some(Operand::Left(Rewrite::Itself)),
        Binary::Umod => is_number(1, y).then_some(Operand::Left(Rewrite::Number(0))),
        _ => None,
    }
}

#[tactic(auto, unfolding(crate::specs::Quotients::division_by_power))]
fn division_by_power(op: Binary, x: &Expr, y: &Expr) -> Option<Operand>
    ensures { option_map (of_two x.now y.now) result ≡ rule.division_by_power (binary op x.now y.now) }
{
    match op {
        Binary::Udiv => Some(Operand::Left(Rewrite::Under(Unary::LshrBy(u128::from(exponent(
            y,
        )?))))),
        Binary::Umod => Some(Operand::Left(Rewrite::Masked(low_ones(exponent(y)?)))),
        _ => None,
    }
}

// What the first of these rules that fits makes of the operator on these parts.
#[tactic(auto, unfolding(crate::specs::Fitting::first_fit))]
pub(crate) fn quotients(op: Binary, x: &Expr, y: &Expr) -> Option<Operand>
    ensures { option_map (of_two x.now y.now) result ≡ first_fit rule.quotient_rules (binary op x.now y.now) }
{
    if let Some(rewrite) = product_by_power(op, x, y) {
        return Some(rewrite);
    }
    if let Some(rewrite) = division_by_zero(op, x, y) {
        return Some(rewrite);
    }
    if let Some(rewrite) = division_by_one(op, x, y) {
        return Some(rewrite);
    }
    division_by_power(op, x, y)
}
