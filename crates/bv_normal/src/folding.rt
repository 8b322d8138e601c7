//! Operators that undo each other.

ghost use Rattle.std.specs.Prelude.{◌≡◌, option_map};
ghost use Rattle.bv_expr.specs.Term.{unary};
ghost use Rattle.bv_normal.specs.Folding as rule;
ghost use Rattle.bv_normal.specs.Rewrites.{of_one};

use crate::rewrites::Rewrite;
use bv_expr::{Expr, Shape, Unary, shape_of};

fn cancels(op: Unary, other: Unary) -> bool
    ensures { result ≡ rule.cancels op other }
{
    match op {
        Unary::Not => matches!(other, Unary::Not),
        Unary::TNot => matches!(other, Unary::TNot),
        Unary::Neg => matches!(other, Unary::Neg),
        _ => false,
    }
}

#[tactic(auto, unfolding(crate::specs::Folding::undone))]
pub(crate) fn undone(op: Unary, x: &Expr) -> Option<Rewrite>
    ensures { option_map (of_one x.now) result ≡ rule.undone (unary op x.now) }
{
    match shape_of(x.node()) {
        Shape::Unary(other, _) => cancels(op, other).then_some(Rewrite::Part),
        _ => None,
    }
}
