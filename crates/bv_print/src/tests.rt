ghost use Rattle.std.specs.Prelude.{◌≡◌, ◌≤◌, IfOk, [], ◌∷◌, codes};
ghost use Rattle.bv_value.specs.BitVector.{of_number};
ghost use Rattle.bv_expr.specs.Node.{term_of};
ghost use Rattle.bv_expr.specs.Sorts.{KeepsNumberBelow64};
ghost use Rattle.bv_expr.specs.Term.{depth, constant, variable, unary, binary};

use super::*;
use crate::terms::push_term;
use bv_expr::{Binary, Expr, Goal, Name, Node, Sort, Unary, Val, binary_node, unary_node};
use bv_value::Bv;
use sqlite_items::Items;
use std::alloc::{AllocError, Global};
use std::test::*;

// A variable of this name and sort.
fn binder(alloc: Global, name: &str, sort: Sort) -> Result<(Name, Sort), AllocError>
    ensures { IfOk result (λ b. b ≡ (name.now, sort)) }
{
    Ok((Name::from_string(String::from_str(alloc, name)?), sort))
}

fn made(node: Node) -> Result<Expr, Fail>
    requires shallow { depth (term_of node) ≤ 1000 }
    requires numbered { KeepsNumberBelow64 (term_of node) }
    ensures { IfOk result (λ e. e ≡ term_of node) }
{
    match Expr::make(node) {
        Ok(term) => Ok(term),
        Err(_) => Err(Fail::new("the parts fit")),
    }
}

fn boxed(alloc: Global, node: Node) -> Result<Box<Expr>, Fail>
    requires shallow { depth (term_of node) ≤ 1000 }
    requires numbered { KeepsNumberBelow64 (term_of node) }
    ensures { IfOk result (λ e. e.value ≡ term_of node) }
{
    Ok(Box::new(alloc, made(node)?)?)
}

// A goal over a vector `x`, a truth `a` and a vector `y2`.
#[tactic(auto, using(crate::proofs::Example::fits))]
fn goal(alloc: Global, stored: Option<Name>) -> Result<Goal, Fail>
    ensures { IfOk result (λ g. g.binders ≡ (codes "x", Sort.Vector 8) ∷ (codes "a", Sort.Truth) ∷ (codes "y2", Sort.Vector 13) ∷ []) }
{
    let mut binders = Items::new(alloc);
    binders.push(binder(alloc, "x", Sort::Vector(8))?)?;
    binders.push(binder(alloc, "a", Sort::Truth)?)?;
    binders.push(binder(alloc, "y2", Sort::Vector(13))?)?;
    let concl = made(Node::TConst(true))?;
    let name = Name::from_string(String::from_str(alloc, "example")?);
    Ok(Goal::new(name, binders, Items::new(alloc), concl, stored))
}

// `3#8 < x`
fn above_three(alloc: Global) -> Result<Expr, Fail>
    ensures { IfOk result (λ e. e ≡ binary Binary.Ult (constant (of_number 8 3)) (variable 0 8)) }
{
    let three = boxed(alloc, Node::Const(Bv::new(8, 3)))?;
    let x = boxed(alloc, Node::Var(0, 8))?;
    made(Node::Ult(three, x))
}

// `!(x = 0#8)`
fn not_zero(alloc: Global) -> Result<Expr, Fail>
    ensures { IfOk result (λ e. e ≡ unary Unary.TNot (binary Binary.Eq (variable 0 8) (constant (of_number 8 0)))) }
{
    let x = boxed(alloc, Node::Var(0, 8))?;
    let zero = boxed(alloc, Node::Const(Bv::new(8, 0)))?;
    let equal = boxed(alloc, Node::Eq(x, zero))?;
    made(Node::TNot(equal))
}

// A goal over a vector `x`, with a hypothesis.
#[tactic(auto, using(crate::proofs::Example::above_three_fits))]
fn goal_above_three(alloc: Global) -> Result<Goal, Fail> {
    let mut binders = Items::new(alloc);
    binders.push(binder(alloc, "x", Sort::Vector(8))?)?;
    let mut hyps = Items::new(alloc);
    hyps.push(above_three(alloc)?)?;
    let name = Name::from_string(String::from_str(alloc, "s")?);
    Ok(Goal::new(name, binders, hyps, not_zero(alloc)?, None))
}

#[test]
fn prints_values_of_each_sort(rt: HostRuntime) -> Result<(), Fail> {
    let alloc = rt.alloc();
    let goal = goal(alloc, None)?;
    let mut out = Vec::from_slice(alloc, b"false ")?;
    let values = [
        Val::Vector(Bv::new(8, 255)),
        Val::Truth(true),
        Val::Vector(Bv::new(13, 10)),
    ];
    print_values(&goal, &values, &mut out)?;
    assert!(rt; out.as_slice() == b"false x = 0xff#8, a = true, y2 = 0x000a#13".as_slice());
    Ok(())
}

// Whether the line of a goal is this text.
fn has_line(alloc: Global, goal: Goal, want: &str) -> Result<bool, Fail> {
    let mut out = Vec::new(alloc);
    print_goal(&goal, &mut out)?;
    Ok(out.as_slice() == want.as_bytes())
}

#[test]
fn prints_goals(rt: HostRuntime) -> Result<(), Fail> {
    let alloc = rt.alloc();
    let bounded = "theorem s (x : BitVec 8) (h : (0x03#8 < x)) : (!(x = 0x00#8)) := by bv_decide\n";
    assert!(rt; has_line(alloc, goal_above_three(alloc)?, bounded)?);
    let example = "example (x : BitVec 8) (a : Bool) (y2 : BitVec 13) : true := by bv_decide\n";
    assert!(rt; has_line(alloc, goal(alloc, None)?, example)?);
    let stored = Name::from_string(String::from_str(alloc, "a.lrat")?);
    let checked =
        "example (x : BitVec 8) (a : Bool) (y2 : BitVec 13) : true := by bv_check \"a.lrat\"\n";
    assert!(rt; has_line(alloc, goal(alloc, Some(stored))?, checked)?);
    Ok(())
}

// Whether a term over vectors `x` and `y` and truths `a` and `b` is printed so.
fn is_printed(alloc: Global, term: Expr, want: &str) -> Result<bool, Fail> {
    let mut binders = Vec::new(alloc);
    binders.push(binder(alloc, "x", Sort::Vector(8))?)?;
    binders.push(binder(alloc, "y", Sort::Vector(8))?)?;
    binders.push(binder(alloc, "a", Sort::Truth)?)?;
    binders.push(binder(alloc, "b", Sort::Truth)?)?;
    let mut out = Vec::new(alloc);
    push_term(&mut out, &binders, &term)?;
    Ok(out.as_slice() == want.as_bytes())
}

// Whether an operation on `x` is printed so.
fn is_printed_of_x(alloc: Global, op: Unary, want: &str) -> Result<bool, Fail> {
    let x = boxed(alloc, Node::Var(0, 8))?;
    is_printed(alloc, made(unary_node(op, x))?, want)
}

// Whether an operation on `x` and `y` is printed so.
fn is_printed_of_vectors(alloc: Global, op: Binary, want: &str) -> Result<bool, Fail> {
    let x = boxed(alloc, Node::Var(0, 8))?;
    let y = boxed(alloc, Node::Var(1, 8))?;
    is_printed(alloc, made(binary_node(op, x, y))?, want)
}

// Whether an operation on `a` and `b` is printed so.
fn is_printed_of_truths(alloc: Global, op: Binary, want: &str) -> Result<bool, Fail> {
    let a = boxed(alloc, Node::TVar(2))?;
    let b = boxed(alloc, Node::TVar(3))?;
    is_printed(alloc, made(binary_node(op, a, b))?, want)
}

static ON_X: [(Unary, &str); 12] = [
    (Unary::Not, "(~~~x)"),
    (Unary::Neg, "(-x)"),
    (Unary::Msb, "(x.msb)"),
    (Unary::ShlBy(3), "(x <<< 3)"),
    (Unary::LshrBy(300), "(x >>> 300)"),
    (Unary::AshrBy(0), "(x.sshiftRight 0)"),
    (Unary::RotL(9), "(x.rotateLeft 9)"),
    (Unary::RotR(10), "(x.rotateRight 10)"),
    (Unary::Bit(7), "(x.getLsbD 7)"),
    (Unary::Extract(2, 4), "(x.extractLsb' 2 4)"),
    (Unary::SetWidth(16), "(x.setWidth 16)"),
    (Unary::SignExtend(128), "(x.signExtend 128)"),
];

static ON_VECTORS: [(Binary, &str); 20] = [
    (Binary::And, "(x &&& y)"),
    (Binary::Or, "(x ||| y)"),
    (Binary::Xor, "(x ^^^ y)"),
    (Binary::Add, "(x + y)"),
    (Binary::Sub, "(x - y)"),
    (Binary::Mul, "(x * y)"),
    (Binary::Udiv, "(x / y)"),
    (Binary::Umod, "(x % y)"),
    (Binary::Sdiv, "(x.sdiv y)"),
    (Binary::Srem, "(x.srem y)"),
    (Binary::Smod, "(x.smod y)"),
    (Binary::Append, "(x ++ y)"),
    (Binary::Shl, "(x <<< y)"),
    (Binary::Lshr, "(x >>> y)"),
    (Binary::Ashr, "(x.sshiftRight' y)"),
    (Binary::Eq, "(x = y)"),
    (Binary::Ult, "(x < y)"),
    (Binary::Ule, "(x <= y)"),
    (Binary::Slt, "(x.slt y)"),
    (Binary::Sle, "(x.sle y)"),
];

static ON_TRUTHS: [(Binary, &str); 5] = [
    (Binary::TAnd, "(a && b)"),
    (Binary::TOr, "(a || b)"),
    (Binary::TXor, "(a ^^ b)"),
    (Binary::Implies, "(a -> b)"),
    (Binary::TEq, "(a = b)"),
];

#[test]
fn prints_operations(rt: HostRuntime) -> Result<(), Fail> {
    for (op, want) in &ON_X {
        assert!(rt; is_printed_of_x(rt.alloc(), *op, want)?, "{want}");
    }
    for (op, want) in &ON_VECTORS {
        assert!(rt; is_printed_of_vectors(rt.alloc(), *op, want)?, "{want}");
    }
    for (op, want) in &ON_TRUTHS {
        assert!(rt; is_printed_of_truths(rt.alloc(), *op, want)?, "{want}");
    }
    Ok(())
}

// `(0x80#8).sshiftRight 2`
fn shifted_constant(alloc: Global) -> Result<Expr, Fail> {
    let constant = boxed(alloc, Node::Const(Bv::new(8, 128)))?;
    made(Node::AshrBy(constant, 2))
}

// `x.sdiv (if a then 5#8 else y)`
fn quotient(alloc: Global) -> Result<Expr, Fail> {
    let x = boxed(alloc, Node::Var(0, 8))?;
    let a = boxed(alloc, Node::TVar(2))?;
    let five = boxed(alloc, Node::Const(Bv::new(8, 5)))?;
    let y = boxed(alloc, Node::Var(1, 8))?;
    let choice = boxed(alloc, Node::If(a, five, y))?;
    made(Node::Sdiv(x, choice))
}

// `!(if a then b else false)`
fn no_choice(alloc: Global) -> Result<Expr, Fail> {
    let a = boxed(alloc, Node::TVar(2))?;
    let b = boxed(alloc, Node::TVar(3))?;
    let no = boxed(alloc, Node::TConst(false))?;
    let choice = boxed(alloc, Node::TIf(a, b, no))?;
    made(Node::TNot(choice))
}

#[test]
fn prints_constants_choices_and_terms_within_terms(rt: HostRuntime) -> Result<(), Fail> {
    let alloc = rt.alloc();
    assert!(rt; is_printed(alloc, shifted_constant(alloc)?, "((0x80#8).sshiftRight 2)")?);
    assert!(rt;
        is_printed(
            alloc,
            quotient(alloc)?,
            "(x.sdiv (if a then 0x05#8 else y))"
        )?
    );
    assert!(rt; is_printed(alloc, no_choice(alloc)?, "(!(if a then b else false))")?);
    assert!(rt; is_printed(alloc, made(Node::TVar(3))?, "b")?);
    Ok(())
}
