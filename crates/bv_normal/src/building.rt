//! Terms made of parts that are moved.

ghost use Rattle.std.specs.Prelude.{◌≡◌, ◌≤◌, [], IfOk};
ghost use Rattle.bv_expr.specs.Meaning.{meaning, HasValues};
ghost use Rattle.bv_expr.specs.Node.{term_of};
ghost use Rattle.bv_expr.specs.Sorts.{IsExpr};
ghost use Rattle.bv_expr.specs.Term.{unary, binary};
ghost use Rattle.bv_normal.specs.Constants as constant;
ghost use Rattle.bv_normal.specs.Parts.{choice_of};
ghost use Rattle.bv_normal.specs.Rewrites as rewrite;

use crate::constants::width;
use crate::parts::{Parts, parts_of};
use bv_expr::{Binary, Expr, Node, Shape, Unary, Val, binary_node, eval, shape_of, unary_node};
use bv_value::Bv;
use std::alloc::{AllocError, Global};

// The term of a node that is one.
#[tactic(auto, using(crate::proofs::Making::numbered))]
pub(crate) fn built(node: Node) -> Expr
    requires { IsExpr (term_of node) }
    ensures { result ≡ term_of node }
{
    match Expr::make(node) {
        Ok(expr) => expr,
        Err(_) => unreachable!(),
    }
}

pub(crate) fn unary_built(alloc: Global, op: Unary, x: Expr) -> Result<Expr, AllocError>
    requires { IsExpr (unary op x) }
    ensures { IfOk result (λ e. e ≡ unary op x) }
{
    let x = Box::new(alloc, x)?;
    Ok(built(unary_node(op, x)))
}

// Two terms in memory of their own.
fn boxed(alloc: Global, x: Expr, y: Expr) -> Result<(Box<Expr>, Box<Expr>), AllocError>
    ensures left { IfOk result (λ b. b.0.value ≡ x) }
    ensures right { IfOk result (λ b. b.1.value ≡ y) }
{
    let x = Box::new(alloc, x)?;
    Ok((x, Box::new(alloc, y)?))
}

pub(crate) fn binary_built(alloc: Global, op: Binary, x: Expr, y: Expr) -> Result<Expr, AllocError>
    requires { IsExpr (binary op x y) }
    ensures { IfOk result (λ e. e ≡ binary op x y) }
{
    let (x, y) = boxed(alloc, x, y)?;
    Ok(built(binary_node(op, x, y)))
}

// A choice between truths or vectors.
fn choice_node(truths: bool, c: Box<Expr>, x: Box<Expr>, y: Box<Expr>) -> Node
    ensures { term_of result ≡ choice_of truths c.value x.value y.value }
{
    if truths {
        Node::TIf(c, x, y)
    } else {
        Node::If(c, x, y)
    }
}

pub(crate) fn choice_built(
    alloc: Global,
    truths: bool,
    c: Expr,
    x: Expr,
    y: Expr,
) -> Result<Expr, AllocError>
    requires { IsExpr (choice_of truths c x y) }
    ensures { IfOk result (λ e. e ≡ choice_of truths c x y) }
{
    let (x, y) = boxed(alloc, x, y)?;
    let c = Box::new(alloc, c)?;
    Ok(built(choice_node(truths, c, x, y)))
}

// The constant of a bit vector.
#[tactic(auto, using(crate::proofs::Making::vector_expr))]
fn vector(value: Bv) -> Expr
    ensures { result ≡ constant.literal (Val.Vector value) }
{
    let _width = value.width();
    built(Node::Const(value))
}

// The constant of a truth.
#[tactic(auto, using(crate::proofs::Making::truth_expr))]
pub(crate) fn truth(value: bool) -> Expr
    ensures { result ≡ constant.literal (Val.Truth value) }
{
    built(Node::TConst(value))
}

// The constant vector of the term's width with this number.
pub(crate) fn number_like(x: &Expr, n: u128) -> Expr
    requires positive { 1 ≤ constant.width x.now }
    requires at_most_128 { constant.width x.now ≤ 128 }
    ensures { result ≡ constant.number_like x.now n }
{
    vector(Bv::new(width(x), n))
}

// The constant that a term without variables means.
pub(crate) fn evaluated(expr: &Expr) -> Expr
    requires { HasValues [] expr.now }
    ensures { result ≡ constant.literal (meaning expr.now []) }
{
    match eval(expr, &[]) {
        Val::Truth(value) => truth(value),
        Val::Vector(value) => vector(value),
    }
}

fn has_one_part(x: &Expr) -> bool
    ensures { result ≡ rewrite.has_one_part x.now }
{
    match shape_of(x.node()) {
        Shape::Unary(_, _) => true,
        _ => false,
    }
}

// The part of a node with one part, or the term itself.
#[tactic(auto, using(crate::proofs::Making::one_has_parts))]
pub(crate) fn part(x: Expr) -> Expr
    ensures { result ≡ rewrite.part x }
{
    if !has_one_part(&x) {
        return x;
    }
    match parts_of(x.into_node()) {
        Parts::Unary(_, part) => Box::into_inner(part),
        _ => unreachable!(),
    }
}
