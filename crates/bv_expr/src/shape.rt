//! A node by its kind: the one place where code goes through all 44 nodes, in both directions.

ghost use Rattle.std.specs.Prelude.{◌≡◌, ◌<◌, ◌≤◌, Some};
ghost use Rattle.bv_expr.specs.Node.{term_of};
ghost use Rattle.bv_expr.specs.Shape.{shape_term};
ghost use Rattle.bv_expr.specs.Term.{unary, binary};

use crate::expr::{Expr, Node};
use crate::ops::{Binary, Unary};
use bv_value::Bv;

/// A node by its kind, with its parts lent.
#[derive(Clone, Copy)]
pub enum Shape<'a> {
    Constant(Bv),
    Variable(u8, u8),
    Truth(bool),
    TruthVariable(u8),
    Unary(Unary, &'a Expr),
    Binary(Binary, &'a Expr, &'a Expr),
    Choice(&'a Expr, &'a Expr, &'a Expr),
    TruthChoice(&'a Expr, &'a Expr, &'a Expr),
}

/// The node by its kind, its parts lent. Takes constant time.
pub fn shape_of(node: &Node) -> Shape<'_>
    ensures { shape_term result ≡ term_of node.now }
{
    match node {
        Node::Const(value) => Shape::Constant(*value),
        Node::Var(number, width) => Shape::Variable(*number, *width),
        Node::TConst(value) => Shape::Truth(*value),
        Node::TVar(number) => Shape::TruthVariable(*number),
        Node::Not(x) => Shape::Unary(Unary::Not, x),
        Node::Neg(x) => Shape::Unary(Unary::Neg, x),
        Node::Msb(x) => Shape::Unary(Unary::Msb, x),
        Node::TNot(x) => Shape::Unary(Unary::TNot, x),
        Node::And(x, y) => Shape::Binary(Binary::And, x, y),
        Node::Or(x, y) => Shape::Binary(Binary::Or, x, y),
        Node::Xor(x, y) => Shape::Binary(Binary::Xor, x, y),
        Node::Add(x, y) => Shape::Binary(Binary::Add, x, y),
        Node::Sub(x, y) => Shape::Binary(Binary::Sub, x, y),
        Node::Mul(x, y) => Shape::Binary(Binary::Mul, x, y),
        Node::Udiv(x, y) => Shape::Binary(Binary::Udiv, x, y),
        Node::Umod(x, y) => Shape::Binary(Binary::Umod, x, y),
        Node::Sdiv(x, y) => Shape::Binary(Binary::Sdiv, x, y),
        Node::Srem(x, y) => Shape::Binary(Binary::Srem, x, y),
        Node::Smod(x, y) => Shape::Binary(Binary::Smod, x, y),
        Node::Append(x, y) => Shape::Binary(Binary::Append, x, y),
        Node::Shl(x, y) => Shape::Binary(Binary::Shl, x, y),
        Node::Lshr(x, y) => Shape::Binary(Binary::Lshr, x, y),
        Node::Ashr(x, y) => Shape::Binary(Binary::Ashr, x, y),
        Node::Eq(x, y) => Shape::Binary(Binary::Eq, x, y),
        Node::Ult(x, y) => Shape::Binary(Binary::Ult, x, y),
        Node::Ule(x, y) => Shape::Binary(Binary::Ule, x, y),
        Node::Slt(x, y) => Shape::Binary(Binary::Slt, x, y),
        Node::Sle(x, y) => Shape::Binary(Binary::Sle, x, y),
        Node::TAnd(x, y) => Shape::Binary(Binary::TAnd, x, y),
        Node::TOr(x, y) => Shape::Binary(Binary::TOr, x, y),
        Node::TXor(x, y) => Shape::Binary(Binary::TXor, x, y),
        Node::Implies(x, y) => Shape::Binary(Binary::Implies, x, y),
        Node::TEq(x, y) => Shape::Binary(Binary::TEq, x, y),
        Node::ShlBy(x, n) => Shape::Unary(Unary::ShlBy(*n), x),
        Node::LshrBy(x, n) => Shape::Unary(Unary::LshrBy(*n), x),
        Node::AshrBy(x, n) => Shape::Unary(Unary::AshrBy(*n), x),
        Node::RotL(x, n) => Shape::Unary(Unary::RotL(*n), x),
        Node::RotR(x, n) => Shape::Unary(Unary::RotR(*n), x),
        Node::Bit(x, n) => Shape::Unary(Unary::Bit(*n), x),
        Node::Extract(x, start, len) => Shape::Unary(Unary::Extract(*start, *len), x),
        Node::SetWidth(x, width) => Shape::Unary(Unary::SetWidth(*width), x),
        Node::SignExtend(x, width) => Shape::Unary(Unary::SignExtend(*width), x),
        Node::If(c, x, y) => Shape::Choice(c, x, y),
        Node::TIf(c, x, y) => Shape::TruthChoice(c, x, y),
    }
}

/// The node of an operator on one part.
pub fn unary_node(op: Unary, x: Box<Expr>) -> Node
    ensures { term_of result ≡ unary op x.value }
{
    match op {
        Unary::Not => Node::Not(x),
        Unary::Neg => Node::Neg(x),
        Unary::Msb => Node::Msb(x),
        Unary::TNot => Node::TNot(x),
        Unary::ShlBy(n) => Node::ShlBy(x, n),
        Unary::LshrBy(n) => Node::LshrBy(x, n),
        Unary::AshrBy(n) => Node::AshrBy(x, n),
        Unary::RotL(n) => Node::RotL(x, n),
        Unary::RotR(n) => Node::RotR(x, n),
        Unary::Bit(n) => Node::Bit(x, n),
        Unary::Extract(start, len) => Node::Extract(x, start, len),
        Unary::SetWidth(width) => Node::SetWidth(x, width),
        Unary::SignExtend(width) => Node::SignExtend(x, width),
    }
}

/// The node of an operator on two parts.
pub fn binary_node(op: Binary, x: Box<Expr>, y: Box<Expr>) -> Node
    ensures { term_of result ≡ binary op x.value y.value }
{
    match op {
        Binary::And => Node::And(x, y),
        Binary::Or => Node::Or(x, y),
        Binary::Xor => Node::Xor(x, y),
        Binary::Add => Node::Add(x, y),
        Binary::Sub => Node::Sub(x, y),
        Binary::Mul => Node::Mul(x, y),
        Binary::Udiv => Node::Udiv(x, y),
        Binary::Umod => Node::Umod(x, y),
        Binary::Sdiv => Node::Sdiv(x, y),
        Binary::Srem => Node::Srem(x, y),
        Binary::Smod => Node::Smod(x, y),
        Binary::Append => Node::Append(x, y),
        Binary::Shl => Node::Shl(x, y),
        Binary::Lshr => Node::Lshr(x, y),
        Binary::Ashr => Node::Ashr(x, y),
        Binary::Eq => Node::Eq(x, y),
        Binary::Ult => Node::Ult(x, y),
        Binary::Ule => Node::Ule(x, y),
        Binary::Slt => Node::Slt(x, y),
        Binary::Sle => Node::Sle(x, y),
        Binary::TAnd => Node::TAnd(x, y),
        Binary::TOr => Node::TOr(x, y),
        Binary::TXor => Node::TXor(x, y),
        Binary::Implies => Node::Implies(x, y),
        Binary::TEq => Node::TEq(x, y),
    }
}
