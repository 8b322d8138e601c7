//! Changes of width that change nothing.

ghost use Rattle.std.specs.Prelude.{◌≡◌, option_map};
ghost use Rattle.bv_expr.specs.Term.{unary};
ghost use Rattle.bv_normal.specs.Widths as rule;
ghost use Rattle.bv_normal.specs.Rewrites.{of_one};

use crate::constants::width;
use crate::rewrites::Rewrite;
use bv_expr::{Expr, Unary};

#[tactic(auto, unfolding(crate::specs::Widths::same_width))]
pub(crate) fn same_width(op: Unary, x: &Expr) -> Option<Rewrite>
    ensures { option_map (of_one x.now) result ≡ rule.same_width (unary op x.now) }
{
    match op {
        Unary::SetWidth(v) | Unary::SignExtend(v) => (v == width(x)).then_some(Rewrite::Itself),
        Unary::Extract(start, len) => { (start == 0 && len == width(x)).then_some(Rewrite::Itself) }
        _ => None,
    }
}
