//! The normal form of a term.

ghost use Rattle.std.specs.Prelude.{◌≡◌, ◌≤◌, IfOk};
ghost use Rattle.bv_expr.specs.Sorts.{sort_of};
ghost use Rattle.bv_expr.specs.Term.{depth as depth_of};
ghost use Rattle.bv_normal.specs.Normal.{normal as normal_form, MeansTheSame};

use crate::parts::{Parts, has_parts, parts_of};
use crate::steps::{binary_step, choice_step, unary_step};
use bv_expr::Expr;
use std::alloc::{AllocError, Global};

// The normal form, parts first.
#[cycle(normalised)]
#[tactic(auto, using(crate::proofs::Finding::leaf_normal), unfolding(crate::specs::Normal::normal))]
fn normalised(alloc: Global, expr: Expr) -> Result<Expr, AllocError>
    ensures { IfOk result (λ e. e ≡ normal_form expr) }
{
    if !has_parts(&expr) {
        return Ok(expr);
    }
    match parts_of(expr.into_node()) {
        Parts::Unary(op, x) => {
            let part = normalised(alloc, Box::into_inner(x))?;
            unary_step(alloc, op, part)
        }
        Parts::Binary(op, x, y) => {
            let (left, right) = both_normalised(alloc, x, y)?;
            binary_step(alloc, op, left, right)
        }
        Parts::Choice(truths, c, x, y) => {
            let (yes, no) = both_normalised(alloc, x, y)?;
            let test = normalised(alloc, Box::into_inner(c))?;
            choice_step(alloc, truths, test, yes, no)
        }
    }
}

// The normal forms of two terms.
#[cycle(normalised)]
fn both_normalised(alloc: Global, x: Box<Expr>, y: Box<Expr>) -> Result<(Expr, Expr), AllocError>
    ensures left { IfOk result (λ forms. forms.0 ≡ normal_form x.value) }
    ensures right { IfOk result (λ forms. forms.1 ≡ normal_form y.value) }
{
    let x = normalised(alloc, Box::into_inner(x))?;
    Ok((x, normalised(alloc, Box::into_inner(y))?))
}

/// The normal form of a term, which is used up: at each node, parts first and from left to right, the first rule of
/// `specs/Normal.antt` that fits is applied once.
///
/// It means the same at all values of the variables, has the same sort, and is no deeper. Parts are moved and not
/// copied. Takes time by the number of nodes and of those that two equal parts have, and stack by the depth. Answers
/// an error only where memory is wanting.
#[tactic(auto, using(crate::proofs::Normalising::normal_means, crate::proofs::Normalising::normal_sort, crate::proofs::Normalising::normal_depth))]
pub fn normal(alloc: Global, expr: Expr) -> Result<Expr, AllocError>
    ensures form { IfOk result (λ e. e ≡ normal_form expr) }
    ensures value { IfOk result (λ e. MeansTheSame expr e) }
    ensures sort { IfOk result (λ e. sort_of e ≡ sort_of expr) }
    ensures depth { IfOk result (λ e. depth_of e ≤ depth_of expr) }
{
    let _depth = expr.depth();
    normalised(alloc, expr)
}
