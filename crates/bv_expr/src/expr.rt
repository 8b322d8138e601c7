//! A term is its node, and keeps its sort and depth beside it, so that neither is counted again.

ghost use Rattle.std.specs.Prelude.{◌≡◌, ◌<◌, ◌≤◌, IfOk, IfErr, IsSome, Some, None};
ghost use Rattle.bv_expr.specs.Sorts as spec;
ghost use Rattle.bv_expr.specs.Term as term;
ghost use Rattle.bv_expr.specs.Node.{term_of};
ghost use Rattle.bv_expr.specs.Shape.{shape_term};

use crate::ops::Sort;
use crate::shape::{Shape, binary_node, shape_of, unary_node};
use crate::sorts::{binary_sort, choice_sort, truth_choice_sort, unary_sort, vectors};
use bv_value::Bv;
use std::alloc::{AllocError, Global};
use std::marker::Model;

/// A term whose sorts and widths agree, at most 1,000 nodes deep, with variables numbered below 64.
///
/// Contracts see it as the plain tree of its nodes.
#[cycle(expr)]
#[derive(Drop)]
pub struct Expr {
    node: Node,
    sort: Sort,
    depth: u32,
}

/// One node, with its parts in order: an operator of Lean 4's `BitVec` or `Bool`.
///
/// Those that begin with `T` are on truths. `Var` keeps its number and width, `TVar` its number; a name that ends
/// in `By` keeps an amount, `Bit` the bit's place, `Extract` the lowest bit's place and the length, `SetWidth` and
/// `SignExtend` the new width.
#[cycle(expr)]
#[derive(Drop)]
pub enum Node {
    Const(Bv),
    Var(u8, u8),
    TConst(bool),
    TVar(u8),
    Not(Box<Expr>),
    Neg(Box<Expr>),
    Msb(Box<Expr>),
    TNot(Box<Expr>),
    And(Box<Expr>, Box<Expr>),
    Or(Box<Expr>, Box<Expr>),
    Xor(Box<Expr>, Box<Expr>),
    Add(Box<Expr>, Box<Expr>),
    Sub(Box<Expr>, Box<Expr>),
    Mul(Box<Expr>, Box<Expr>),
    Udiv(Box<Expr>, Box<Expr>),
    Umod(Box<Expr>, Box<Expr>),
    Sdiv(Box<Expr>, Box<Expr>),
    Srem(Box<Expr>, Box<Expr>),
    Smod(Box<Expr>, Box<Expr>),
    Append(Box<Expr>, Box<Expr>),
    Shl(Box<Expr>, Box<Expr>),
    Lshr(Box<Expr>, Box<Expr>),
    Ashr(Box<Expr>, Box<Expr>),
    Eq(Box<Expr>, Box<Expr>),
    Ult(Box<Expr>, Box<Expr>),
    Ule(Box<Expr>, Box<Expr>),
    Slt(Box<Expr>, Box<Expr>),
    Sle(Box<Expr>, Box<Expr>),
    TAnd(Box<Expr>, Box<Expr>),
    TOr(Box<Expr>, Box<Expr>),
    TXor(Box<Expr>, Box<Expr>),
    Implies(Box<Expr>, Box<Expr>),
    TEq(Box<Expr>, Box<Expr>),
    ShlBy(Box<Expr>, u128),
    LshrBy(Box<Expr>, u128),
    AshrBy(Box<Expr>, u128),
    RotL(Box<Expr>, u128),
    RotR(Box<Expr>, u128),
    Bit(Box<Expr>, u128),
    Extract(Box<Expr>, u128, u8),
    SetWidth(Box<Expr>, u8),
    SignExtend(Box<Expr>, u8),
    If(Box<Expr>, Box<Expr>, Box<Expr>),
    TIf(Box<Expr>, Box<Expr>, Box<Expr>),
}

impl Model for Expr {
    ghost use Rattle.bv_expr.specs.Term.{Term};
    ghost use Rattle.bv_expr.specs.TermCode.{coded_term};

    ghost Value = { Term };

    ghost coded = { coded_term };

    ghost use Rattle.bv_expr.specs.Term.{nodes};
    ghost use Rattle.bv_expr.specs.Sorts.{IsKept};
    ghost use Rattle.bv_expr.specs.Node.{term_of};

    ghost view = { λ e. term_of e.node };

    ghost invariant = { λ e. IsKept (term_of e.node) e.sort e.depth };

    ghost size = { nodes };
}

/// A node whose parts don't fit by their sorts and widths, handed back whole.
#[derive(Drop)]
pub struct WidthClash(pub Node);

// The sort of a node, where its parts fit, and its depth.
fn measured(node: &Node) -> (Option<Sort>, u32)
    requires shallow { term.depth (term_of node.now) ≤ 1000 }
    requires numbered { spec.KeepsNumberBelow64 (term_of node.now) }
    ensures leaves { spec.LeavesFit (term_of node.now) }
    ensures sort { result.0 ≡ spec.sort_of (term_of node.now) }
    ensures depth { result.1 ≡ term.depth (term_of node.now) }
{
    match shape_of(node) {
        Shape::Constant(value) => (vectors(u16::from(value.width())), 1),
        Shape::Variable(_, width) => (vectors(u16::from(width)), 1),
        Shape::Truth(_) | Shape::TruthVariable(_) => (Some(Sort::Truth), 1),
        Shape::Unary(op, x) => (unary_sort(op, x.sort()), x.depth() + 1),
        Shape::Binary(op, x, y) => (
            binary_sort(op, x.sort(), y.sort()),
            x.depth().max(y.depth()) + 1,
        ),
        Shape::Choice(c, x, y) => (
            choice_sort(c.sort(), x.sort(), y.sort()),
            c.depth().max(x.depth().max(y.depth())) + 1,
        ),
        Shape::TruthChoice(c, x, y) => (
            truth_choice_sort(c.sort(), x.sort(), y.sort()),
            c.depth().max(x.depth().max(y.depth())) + 1,
        ),
    }
}

impl Expr {
    /// The term of this node, or the node again exactly where its sorts and widths don't fit: operands of one
    /// sort and, but for `Append` and shifts, of one width; each width that it keeps or gives 1 to 128.
    ///
    /// Takes constant time, by the sorts and depths that the parts keep.
    pub fn make(node: Node) -> Result<Expr, WidthClash>
        requires shallow { term.depth (term_of node) ≤ 1000 }
        requires numbered { spec.KeepsNumberBelow64 (term_of node) }
        ensures fits { IfOk result (λ e. (e ≡ term_of node) × spec.IsExpr e) }
        ensures clashes { IfErr result (λ clash. (clash.0 ≡ node) × (spec.sort_of (term_of node) ≡ None)) }
    {
        let (sort, depth) = measured(&node);
        match sort {
            Some(sort) => Ok(Expr { node, sort, depth }),
            None => Err(WidthClash(node)),
        }
    }

    /// The outermost node.
    pub fn node(&self) -> &Node
        ensures tree { term_of result.now ≡ self.now }
        ensures expr { spec.IsExpr self.now }
    {
        &self.node
    }

    /// What the term stands for: a truth, or vectors of a width.
    pub fn sort(&self) -> Sort
        ensures { spec.sort_of self.now ≡ Some result }
    {
        self.sort
    }

    /// The number of nodes on the longest way down, 1 to 1,000.
    pub fn depth(&self) -> u32
        ensures value { result ≡ term.depth self.now }
        ensures expr { spec.IsExpr self.now }
    {
        self.depth
    }

    /// The outermost node, by value.
    pub fn into_node(self) -> Node
        ensures { term_of result ≡ self }
    {
        let Expr { node, .. } = self;
        node
    }

    // The same term by a copy of its node.
    fn with_node(&self, node: Node) -> Expr
        requires { term_of node ≡ self.now }
        ensures { result ≡ self.now }
    {
        Expr {
            node,
            sort: self.sort,
            depth: self.depth,
        }
    }

    /// The same term in memory of its own. Takes time by the number of its nodes, and stack by its depth.
    pub fn copy(&self, alloc: Global) -> Result<Expr, AllocError>
        ensures { IfOk result (λ e. e ≡ self.now) }
    {
        match shape_of(&self.node) {
            Shape::Constant(value) => Ok(self.with_node(Node::Const(value))),
            Shape::Variable(number, width) => Ok(self.with_node(Node::Var(number, width))),
            Shape::Truth(value) => Ok(self.with_node(Node::TConst(value))),
            Shape::TruthVariable(number) => Ok(self.with_node(Node::TVar(number))),
            Shape::Unary(op, x) => {
                let x = Box::new(alloc, x.copy(alloc)?)?;
                Ok(self.with_node(unary_node(op, x)))
            }
            Shape::Binary(op, x, y) => {
                let x = Box::new(alloc, x.copy(alloc)?)?;
                let y = Box::new(alloc, y.copy(alloc)?)?;
                Ok(self.with_node(binary_node(op, x, y)))
            }
            Shape::Choice(c, x, y) => {
                let c = Box::new(alloc, c.copy(alloc)?)?;
                let x = Box::new(alloc, x.copy(alloc)?)?;
                let y = Box::new(alloc, y.copy(alloc)?)?;
                Ok(self.with_node(Node::If(c, x, y)))
            }
            Shape::TruthChoice(c, x, y) => {
                let c = Box::new(alloc, c.copy(alloc)?)?;
                let x = Box::new(alloc, x.copy(alloc)?)?;
                let y = Box::new(alloc, y.copy(alloc)?)?;
                Ok(self.with_node(Node::TIf(c, x, y)))
            }
        }
    }
}
