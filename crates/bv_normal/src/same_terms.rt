//! Equality of terms.

ghost use Rattle.std.specs.Prelude.{◌≡◌};
ghost use Rattle.bv_normal.specs.Same as spec;

use bv_expr::{Binary, Expr, Shape, Unary, shape_of};

#[tactic(auto, unfolding(crate::specs::Same::same_unary))]
fn same_unary(op: Unary, other: Unary) -> bool
    ensures { result ≡ spec.same_unary op other }
{
    match op {
        Unary::Not => matches!(other, Unary::Not),
        Unary::Neg => matches!(other, Unary::Neg),
        Unary::Msb => matches!(other, Unary::Msb),
        Unary::TNot => matches!(other, Unary::TNot),
        Unary::ShlBy(m) => matches!(other, Unary::ShlBy(n) if m == n),
        Unary::LshrBy(m) => matches!(other, Unary::LshrBy(n) if m == n),
        Unary::AshrBy(m) => matches!(other, Unary::AshrBy(n) if m == n),
        Unary::RotL(m) => matches!(other, Unary::RotL(n) if m == n),
        Unary::RotR(m) => matches!(other, Unary::RotR(n) if m == n),
        Unary::Bit(m) => matches!(other, Unary::Bit(n) if m == n),
        Unary::Extract(start, len) => {
            matches!(other, Unary::Extract(from, count) if start == from && len == count)
        }
        Unary::SetWidth(v) => matches!(other, Unary::SetWidth(w) if v == w),
        Unary::SignExtend(v) => matches!(other, Unary::SignExtend(w) if v == w),
    }
}

#[tactic(auto, unfolding(crate::specs::Same::same_binary))]
fn same_binary(op: Binary, other: Binary) -> bool
    ensures { result ≡ spec.same_binary op other }
{
    op == other
}

/// Whether two terms are the same. Takes time by the number of nodes up to the first difference, and stack by the
/// depth.
#[tactic(auto, unfolding(crate::specs::Same::same))]
pub(crate) fn same(a: &Expr, b: &Expr) -> bool
    ensures { result ≡ spec.same a.now b.now }
{
    match shape_of(a.node()) {
        Shape::Constant(v) => match shape_of(b.node()) {
            Shape::Constant(w) => v.width() == w.width() && v.number() == w.number(),
            _ => false,
        },
        Shape::Variable(k, v) => match shape_of(b.node()) {
            Shape::Variable(l, w) => k == l && v == w,
            _ => false,
        },
        Shape::Truth(p) => match shape_of(b.node()) {
            Shape::Truth(q) => p == q,
            _ => false,
        },
        Shape::TruthVariable(k) => match shape_of(b.node()) {
            Shape::TruthVariable(l) => k == l,
            _ => false,
        },
        Shape::Unary(op, x) => match shape_of(b.node()) {
            Shape::Unary(other, y) => same_unary(op, other) && same(x, y),
            _ => false,
        },
        Shape::Binary(op, x, y) => match shape_of(b.node()) {
            Shape::Binary(other, v, w) => same_binary(op, other) && (same(x, v) && same(y, w)),
            _ => false,
        },
        Shape::Choice(c, x, y) => match shape_of(b.node()) {
            Shape::Choice(d, v, w) => same(c, d) && (same(x, v) && same(y, w)),
            _ => false,
        },
        Shape::TruthChoice(c, x, y) => match shape_of(b.node()) {
            Shape::TruthChoice(d, v, w) => same(c, d) && (same(x, v) && same(y, w)),
            _ => false,
        },
    }
}
