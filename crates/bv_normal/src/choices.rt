//! Choices that are decided.

ghost use Rattle.std.specs.Prelude.{◌≡◌, option_map, if◌then◌else◌};
ghost use Rattle.bv_normal.specs.Choices as rule;

use crate::same_terms::same;
use bv_expr::{Expr, Shape, shape_of};

// Whether the choice is its first branch or its second, where that is known.
pub(crate) fn chosen(c: &Expr, x: &Expr, y: &Expr) -> Option<bool>
    ensures { option_map (λ b. if b then x.now else y.now) result ≡ rule.chosen c.now x.now y.now }
{
    match shape_of(c.node()) {
        Shape::Truth(holds) => Some(holds),
        _ => same(x, y).then_some(true),
    }
}
