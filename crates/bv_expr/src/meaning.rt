//! The value of a term, by the methods of `Bv`.

ghost use Rattle.std.specs.Prelude.{◌≡◌, IsSome, ◌<◌, length};
ghost use Rattle.bv_expr.specs.Sorts as sorts;
ghost use Rattle.bv_expr.specs.Meaning.{sort_of_value, vector as vector_of, is_true as truth_of, unary_value as unary_meaning, binary_value as binary_meaning, meaning, HasValues};

use crate::expr::Expr;
use crate::ops::{Binary, Unary, Val};
use crate::shape::{Shape, shape_of};
use bv_value::Bv;

// The bit vector of a value of that sort.
fn vector(value: Val) -> Bv
    ensures { result ≡ vector_of value }
{
    match value {
        Val::Vector(x) => x,
        Val::Truth(_) => Bv::new(1, 0),
    }
}

// The truth of a value of that sort.
pub(crate) fn is_true(value: Val) -> bool
    ensures { result ≡ truth_of value }
{
    match value {
        Val::Truth(b) => b,
        Val::Vector(_) => false,
    }
}

// What an operator on one part gives.
fn unary_value(op: Unary, a: Val) -> Val
    requires { IsSome (sorts.unary_sort op (sort_of_value a)) }
    ensures { result ≡ unary_meaning op a }
{
    match op {
        Unary::Not => Val::Vector(vector(a).not()),
        Unary::Neg => Val::Vector(vector(a).neg()),
        Unary::Msb => Val::Truth(vector(a).msb()),
        Unary::TNot => Val::Truth(!is_true(a)),
        Unary::ShlBy(n) => Val::Vector(vector(a).shl_by(n)),
        Unary::LshrBy(n) => Val::Vector(vector(a).lshr_by(n)),
        Unary::AshrBy(n) => Val::Vector(vector(a).ashr_by(n)),
        Unary::RotL(n) => Val::Vector(vector(a).rotl(n)),
        Unary::RotR(n) => Val::Vector(vector(a).rotr(n)),
        Unary::Bit(i) => Val::Truth(vector(a).bit(i)),
        Unary::Extract(start, len) => Val::Vector(vector(a).extract(start, len)),
        Unary::SetWidth(width) => Val::Vector(vector(a).set_width(width)),
        Unary::SignExtend(width) => Val::Vector(vector(a).sign_extend(width)),
    }
}

// What an operator on two parts gives.
fn binary_value(op: Binary, a: Val, b: Val) -> Val
    requires { IsSome (sorts.binary_sort op (sort_of_value a) (sort_of_value b)) }
    ensures { result ≡ binary_meaning op a b }
{
    match a {
        Val::Vector(x) => vectors_value(op, x, vector(b)),
        Val::Truth(p) => truths_value(op, p, is_true(b)),
    }
}

// What an operator on two vectors gives.
fn vectors_value(op: Binary, x: Bv, y: Bv) -> Val
    requires { IsSome (sorts.vector_sort op x.width y.width) }
    ensures { result ≡ binary_meaning op (Val.Vector x) (Val.Vector y) }
{
    match op {
        Binary::And => Val::Vector(x.and(&y)),
        Binary::Or => Val::Vector(x.or(&y)),
        Binary::Xor => Val::Vector(x.xor(&y)),
        Binary::Add => Val::Vector(x.add(&y)),
        Binary::Sub => Val::Vector(x.sub(&y)),
        Binary::Mul => Val::Vector(x.mul(&y)),
        Binary::Udiv => Val::Vector(x.udiv(&y)),
        Binary::Umod => Val::Vector(x.umod(&y)),
        Binary::Sdiv => Val::Vector(x.sdiv(&y)),
        Binary::Srem => Val::Vector(x.srem(&y)),
        Binary::Smod => Val::Vector(x.smod(&y)),
        Binary::Append => Val::Vector(x.append(&y)),
        Binary::Shl => Val::Vector(x.shl(&y)),
        Binary::Lshr => Val::Vector(x.lshr(&y)),
        Binary::Ashr => Val::Vector(x.ashr(&y)),
        Binary::Eq => Val::Truth(x.number() == y.number()),
        Binary::Ult => Val::Truth(x.ult(&y)),
        Binary::Ule => Val::Truth(x.ule(&y)),
        Binary::Slt => Val::Truth(x.slt(&y)),
        Binary::Sle => Val::Truth(x.sle(&y)),
        Binary::TAnd | Binary::TOr | Binary::TXor | Binary::Implies | Binary::TEq => unreachable!(),
    }
}

// What an operator on two truths gives.
fn truths_value(op: Binary, p: bool, q: bool) -> Val
    requires { IsSome (sorts.truth_sort op) }
    ensures { result ≡ binary_meaning op (Val.Truth p) (Val.Truth q) }
{
    match op {
        Binary::TAnd => Val::Truth(p & q),
        Binary::TOr => Val::Truth(p | q),
        Binary::TXor => Val::Truth(p != q),
        Binary::Implies => Val::Truth(!p | q),
        Binary::TEq => Val::Truth(p == q),
        _ => unreachable!(),
    }
}

/// The value of a term, where variable k has the k-th value: what it means by Lean 4's `BitVec` and `Bool`.
///
/// Values that the term has no variable for may be of any sort. Takes time by the number of its nodes, and stack by
/// its depth.
pub fn eval(expr: &Expr, env: &[Val]) -> Val
    requires { HasValues env.now expr.now }
    ensures { result ≡ meaning expr.now env.now }
{
    match shape_of(expr.node()) {
        Shape::Constant(value) => Val::Vector(value),
        Shape::Variable(number, _) => env[usize::from(number)],
        Shape::TruthVariable(number) => env[usize::from(number)],
        Shape::Truth(value) => Val::Truth(value),
        Shape::Unary(op, x) => unary_value(op, eval(x, env)),
        Shape::Binary(op, x, y) => binary_value(op, eval(x, env), eval(y, env)),
        Shape::Choice(c, x, y) => if is_true(eval(c, env)) {
            eval(x, env)
        } else {
            eval(y, env)
        },
        Shape::TruthChoice(c, x, y) => if is_true(eval(c, env)) {
            eval(x, env)
        } else {
            eval(y, env)
        },
    }
}
