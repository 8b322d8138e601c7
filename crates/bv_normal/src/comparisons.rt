//! Comparisons of equal parts.

ghost use Rattle.std.specs.Prelude.{◌≡◌, option_map};
ghost use Rattle.bv_expr.specs.Term.{binary};
ghost use Rattle.bv_normal.specs.Fitting.{first_fit};
ghost use Rattle.bv_normal.specs.Comparisons as rule;
ghost use Rattle.bv_normal.specs.Rewrites.{of_two};

use crate::rewrites::{Operand, Rewrite};
use crate::same_terms::same;
use bv_expr::{Binary, Expr};

#[tactic(auto, unfolding(crate::specs::Comparisons::equal_holds))]
fn equal_holds(op: Binary, x: &Expr, y: &Expr) -> Option<Operand>
    ensures { option_map (of_two x.now y.now) result ≡ rule.equal_holds (binary op x.now y.now) }
{
    match op {
        Binary::Eq | Binary::Ule | Binary::Sle | Binary::TEq => {
            same(x, y).then_some(Operand::Left(Rewrite::Truth(true)))
        }
        _ => None,
    }
}

#[tactic(auto, unfolding(crate::specs::Comparisons::equal_fails))]
fn equal_fails(op: Binary, x: &Expr, y: &Expr) -> Option<Operand>
    ensures { option_map (of_two x.now y.now) result ≡ rule.equal_fails (binary op x.now y.now) }
{
    match op {
        Binary::Ult | Binary::Slt | Binary::TXor => {
            same(x, y).then_some(Operand::Left(Rewrite::Truth(false)))
        }
        _ => None,
    }
}

// What the first of these rules that fits makes of the operator on these parts.
#[tactic(auto, unfolding(crate::specs::Fitting::first_fit))]
pub(crate) fn comparisons(op: Binary, x: &Expr, y: &Expr) -> Option<Operand>
    ensures { option_map (of_two x.now y.now) result ≡ first_fit rule.comparison_rules (binary op x.now y.now) }
{
    if let Some(rewrite) = equal_holds(op, x, y) {
        return Some(rewrite);
    }
    equal_fails(op, x, y)
}
