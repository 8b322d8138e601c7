//! Shifts and rotations.

ghost use Rattle.std.specs.Prelude.{◌≡◌, ◌%◌, ◌==◌, option_map};
ghost use Rattle.bv_expr.specs.Term.{unary, binary};
ghost use Rattle.bv_normal.specs.Constants as of;
ghost use Rattle.bv_normal.specs.Shifts as rule;
ghost use Rattle.bv_normal.specs.Rewrites.{of_one, of_two};

use crate::constants::{number, width};
use crate::rewrites::{Operand, Rewrite};
use bv_expr::{Binary, Expr, Unary};

#[tactic(auto, unfolding(crate::specs::Shifts::shift_by_constant))]
pub(crate) fn shift_by_constant(op: Binary, x: &Expr, y: &Expr) -> Option<Operand>
    ensures { option_map (of_two x.now y.now) result ≡ rule.shift_by_constant (binary op x.now y.now) }
{
    match op {
        Binary::Shl => Some(Operand::Left(Rewrite::Under(Unary::ShlBy(number(y)?)))),
        Binary::Lshr => Some(Operand::Left(Rewrite::Under(Unary::LshrBy(number(y)?)))),
        Binary::Ashr => Some(Operand::Left(Rewrite::Under(Unary::AshrBy(number(y)?)))),
        _ => None,
    }
}

// Whether a rotation of the term by `n` moves nothing.
fn is_full_turn(n: u128, x: &Expr) -> bool
    ensures { result ≡ (n % of.width x.now == 0) }
{
    let width = u128::from(width(x));
    if width == 0 { n == 0 } else { n % width == 0 }
}

#[tactic(auto, unfolding(crate::specs::Shifts::shift_by_nothing))]
pub(crate) fn shift_by_nothing(op: Unary, x: &Expr) -> Option<Rewrite>
    ensures { option_map (of_one x.now) result ≡ rule.shift_by_nothing (unary op x.now) }
{
    match op {
        Unary::ShlBy(n) | Unary::LshrBy(n) | Unary::AshrBy(n) => (n == 0).then_some(
            Rewrite::Itself,
        ),
        Unary::RotL(n) | Unary::RotR(n) => is_full_turn(n, x).then_some(Rewrite::Itself),
        _ => None,
    }
}

#[tactic(auto, unfolding(crate::specs::Shifts::shift_past_width))]
pub(crate) fn shift_past_width(op: Unary, x: &Expr) -> Option<Rewrite>
    ensures { option_map (of_one x.now) result ≡ rule.shift_past_width (unary op x.now) }
{
    match op {
        Unary::ShlBy(n) | Unary::LshrBy(n) => {
            (u128::from(width(x)) <= n).then_some(Rewrite::Number(0))
        }
        _ => None,
    }
}
