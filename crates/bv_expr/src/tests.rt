ghost use Rattle.std.specs.Prelude.{◌≡◌, ◌≤◌, IfOk, []};
ghost use Rattle.bv_value.specs.BitVector.{of_number};
ghost use Rattle.bv_expr.specs.Node.{term_of};
ghost use Rattle.bv_expr.specs.Sorts.{KeepsNumberBelow64};
ghost use Rattle.bv_expr.specs.Term.{depth, constant, variable, binary};

use super::*;
use bv_value::Bv;
use sqlite_items::Items;
use std::alloc::Global;
use std::test::*;

fn crosses_threads<T: Send + Sync>(_value: &T) {}

fn made(node: Node) -> Result<Expr, Fail>
    requires shallow { depth (term_of node) ≤ 1000 }
    requires numbered { KeepsNumberBelow64 (term_of node) }
    ensures { IfOk result (λ e. e ≡ term_of node) }
{
    match Expr::make(node) {
        Ok(expr) => Ok(expr),
        Err(_) => Err(Fail::new("the parts fit")),
    }
}

fn boxed(alloc: Global, node: Node) -> Result<Box<Expr>, Fail>
    requires shallow { depth (term_of node) ≤ 1000 }
    requires numbered { KeepsNumberBelow64 (term_of node) }
    ensures { IfOk result (λ e. e.value ≡ term_of node) }
{
    Ok(Box::new(alloc, made(node)?)?)
}

// Whether a clash hands back a sum of vectors of 8 and 9 bits.
fn is_the_sum(clash: &WidthClash) -> bool {
    match &clash.0 {
        Node::Add(x, y) => x.sort() == Sort::Vector(8) && y.sort() == Sort::Vector(9),
        _ => false,
    }
}

#[test]
fn refuses_a_sum_of_two_widths(rt: HostRuntime) -> Result<(), Fail> {
    let x = boxed(rt.alloc(), Node::Var(0, 8))?;
    let y = boxed(rt.alloc(), Node::Var(1, 9))?;
    let clash = Expr::make(Node::Add(x, y))
        .err()
        .ok_or("the widths differ")?;
    assert!(rt; is_the_sum(&clash));
    Ok(())
}

// `x + 3#8`
fn sum(alloc: Global) -> Result<Expr, Fail>
    ensures { IfOk result (λ e. e ≡ binary Binary.Add (variable 0 8) (constant (of_number 8 3))) }
{
    let x = boxed(alloc, Node::Var(0, 8))?;
    let three = boxed(alloc, Node::Const(Bv::new(8, 3)))?;
    made(Node::Add(x, three))
}

#[test]
fn evaluates_vectors(rt: HostRuntime) -> Result<(), Fail> {
    let sum = sum(rt.alloc())?;
    crosses_threads(&sum);
    let copy = sum.copy(rt.alloc())?;
    assert_eq!(rt;
        eval(&copy, &[Val::Vector(Bv::new(8, 254))]),
        Val::Vector(Bv::new(8, 1))
    );
    Ok(())
}

#[test]
fn evaluates_truths(rt: HostRuntime) -> Result<(), Fail> {
    let a = boxed(rt.alloc(), Node::TVar(0))?;
    let not = made(Node::TNot(a))?;
    assert_eq!(rt; eval(&not, &[Val::Truth(false)]), Val::Truth(true));
    Ok(())
}

// Whether the goal `5#8 = n#8`, where n is this number, is valid.
fn five_is(alloc: Global, number: u128) -> Result<bool, Fail> {
    let five = boxed(alloc, Node::Const(Bv::new(8, 5)))?;
    let number = boxed(alloc, Node::Const(Bv::new(8, number)))?;
    let concl = made(Node::Eq(five, number))?;
    let name = Name::from_string("example".to_owned(alloc)?);
    let goal = Goal::new(name, Items::new(alloc), Items::new(alloc), concl, None);
    crosses_threads(&goal);
    Ok(goal.closed_is_valid())
}

#[test]
fn decides_closed_goals(rt: HostRuntime) -> Result<(), Fail> {
    assert!(rt; five_is(rt.alloc(), 261)?);
    assert!(rt; !five_is(rt.alloc(), 6)?);
    Ok(())
}
