//! Which terms are constants.

ghost use Rattle.std.specs.Prelude.{◌≡◌, ◌≤◌, IfSome};
ghost use Rattle.bv_normal.specs.Constants as spec;

use bv_expr::{Expr, Shape, Sort, shape_of};

pub(crate) fn is_constant(x: &Expr) -> bool
    ensures { result ≡ spec.is_constant x.now }
{
    match shape_of(x.node()) {
        Shape::Constant(_) | Shape::Truth(_) => true,
        _ => false,
    }
}

// The number of a constant vector.
pub(crate) fn number(x: &Expr) -> Option<u128>
    ensures { result ≡ spec.number x.now }
{
    match shape_of(x.node()) {
        Shape::Constant(value) => Some(value.number()),
        _ => None,
    }
}

// Whether it is the constant vector with this number.
pub(crate) fn is_number(n: u128, x: &Expr) -> bool
    ensures { result ≡ spec.is_number n x.now }
{
    match shape_of(x.node()) {
        Shape::Constant(value) => value.number() == n,
        _ => false,
    }
}

// Whether it is the constant vector whose bits are all ones.
#[tactic(auto, using(crate::proofs::Numbers::all_ones))]
pub(crate) fn is_all_ones(x: &Expr) -> bool
    ensures { result ≡ spec.is_all_ones x.now }
{
    match shape_of(x.node()) {
        Shape::Constant(value) => value.not().number() == 0,
        _ => false,
    }
}

// The width of a vector term.
pub(crate) fn width(x: &Expr) -> u8
    ensures { result ≡ spec.width x.now }
{
    match x.sort() {
        Sort::Vector(width) => width,
        Sort::Truth => 0,
    }
}

// The k from 1 to `bound` of which the number is 2 ^ k.
#[tactic(auto, unfolding(crate::specs::Constants::exponent_to))]
fn exponent_to(bound: u8, n: u128) -> Option<u8>
    requires { bound ≤ 127 }
    ensures value { result ≡ spec.exponent_to bound n }
    ensures within { IfSome result (λ k. k ≤ 127) }
{
    if bound == 0 {
        None
    } else if n == 1 << bound {
        Some(bound)
    } else {
        exponent_to(bound - 1, n)
    }
}

// The k of a constant vector with the number 2 ^ k, k at least 1.
pub(crate) fn exponent(x: &Expr) -> Option<u8>
    ensures value { result ≡ spec.exponent x.now }
    ensures within { IfSome result (λ k. k ≤ 127) }
{
    match number(x) {
        Some(n) => exponent_to(127, n),
        None => None,
    }
}
