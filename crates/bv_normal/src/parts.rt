//! A node taken apart, so that its parts are moved: the one place where this crate goes through all 44 nodes.

ghost use Rattle.std.specs.Prelude.{◌≡◌, true};
ghost use Rattle.bv_expr.specs.Node.{term_of};
ghost use Rattle.bv_expr.specs.Sorts.{IsExpr};
ghost use Rattle.bv_normal.specs.Folding.{has_parts};
ghost use Rattle.bv_normal.specs.Parts.{parts_term};

use bv_expr::{Binary, Expr, Node, Shape, Unary, shape_of};

/// The parts of a node that has some, by its kind.
#[derive(Drop)]
pub(crate) enum Parts {
    Unary(Unary, Box<Expr>),
    Binary(Binary, Box<Expr>, Box<Expr>),
    /// A choice, and whether it is between truths.
    Choice(bool, Box<Expr>, Box<Expr>, Box<Expr>),
}

// Whether the node has parts.
pub(crate) fn has_parts(x: &Expr) -> bool
    ensures value { result ≡ has_parts x.now }
    ensures expr { IsExpr x.now }
{
    match shape_of(x.node()) {
        Shape::Constant(_) | Shape::Variable(_, _) | Shape::Truth(_) | Shape::TruthVariable(_) => {
            false
        }
        _ => true,
    }
}

// The parts of a node that has some. Takes constant time.
pub(crate) fn parts_of(node: Node) -> Parts
    requires { has_parts (term_of node) ≡ true }
    ensures { parts_term result ≡ term_of node }
{
    match node {
        Node::Const(_) | Node::Var(_, _) | Node::TConst(_) | Node::TVar(_) => unreachable!(),
        Node::Not(x) => Parts::Unary(Unary::Not, x),
        Node::Neg(x) => Parts::Unary(Unary::Neg, x),
        Node::Msb(x) => Parts::Unary(Unary::Msb, x),
        Node::TNot(x) => Parts::Unary(Unary::TNot, x),
        Node::And(x, y) => Parts::Binary(Binary::And, x, y),
        Node::Or(x, y) => Parts::Binary(Binary::Or, x, y),
        Node::Xor(x, y) => Parts::Binary(Binary::Xor, x, y),
        Node::Add(x, y) => Parts::Binary(Binary::Add, x, y),
        Node::Sub(x, y) => Parts::Binary(Binary::Sub, x, y),
        Node::Mul(x, y) => Parts::Binary(Binary::Mul, x, y),
        Node::Udiv(x, y) => Parts::Binary(Binary::Udiv, x, y),
        Node::Umod(x, y) => Parts::Binary(Binary::Umod, x, y),
        Node::Sdiv(x, y) => Parts::Binary(Binary::Sdiv, x, y),
        Node::Srem(x, y) => Parts::Binary(Binary::Srem, x, y),
        Node::Smod(x, y) => Parts::Binary(Binary::Smod, x, y),
        Node::Append(x, y) => Parts::Binary(Binary::Append, x, y),
        Node::Shl(x, y) => Parts::Binary(Binary::Shl, x, y),
        Node::Lshr(x, y) => Parts::Binary(Binary::Lshr, x, y),
        Node::Ashr(x, y) => Parts::Binary(Binary::Ashr, x, y),
        Node::Eq(x, y) => Parts::Binary(Binary::Eq, x, y),
        Node::Ult(x, y) => Parts::Binary(Binary::Ult, x, y),
        Node::Ule(x, y) => Parts::Binary(Binary::Ule, x, y),
        Node::Slt(x, y) => Parts::Binary(Binary::Slt, x, y),
        Node::Sle(x, y) => Parts::Binary(Binary::Sle, x, y),
        Node::TAnd(x, y) => Parts::Binary(Binary::TAnd, x, y),
        Node::TOr(x, y) => Parts::Binary(Binary::TOr, x, y),
        Node::TXor(x, y) => Parts::Binary(Binary::TXor, x, y),
        Node::Implies(x, y) => Parts::Binary(Binary::Implies, x, y),
        Node::TEq(x, y) => Parts::Binary(Binary::TEq, x, y),
        Node::ShlBy(x, n) => Parts::Unary(Unary::ShlBy(n), x),
        Node::LshrBy(x, n) => Parts::Unary(Unary::LshrBy(n), x),
        Node::AshrBy(x, n) => Parts::Unary(Unary::AshrBy(n), x),
        Node::RotL(x, n) => Parts::Unary(Unary::RotL(n), x),
        Node::RotR(x, n) => Parts::Unary(Unary::RotR(n), x),
        Node::Bit(x, n) => Parts::Unary(Unary::Bit(n), x),
        Node::Extract(x, start, len) => Parts::Unary(Unary::Extract(start, len), x),
        Node::SetWidth(x, width) => Parts::Unary(Unary::SetWidth(width), x),
        Node::SignExtend(x, width) => Parts::Unary(Unary::SignExtend(width), x),
        Node::If(c, x, y) => Parts::Choice(false, c, x, y),
        Node::TIf(c, x, y) => Parts::Choice(true, c, x, y),
    }
}
