ghost use Rattle.std.specs.Prelude.{◌≡◌, ◌≤◌, IfOk};
ghost use Rattle.bv_value.specs.BitVector.{of_number};
ghost use Rattle.bv_expr.specs.Node.{term_of};
ghost use Rattle.bv_expr.specs.Sorts.{KeepsNumberBelow64};
ghost use Rattle.bv_expr.specs.Term.{depth, constant, variable, binary};

use crate::normal;
use crate::same_terms::same;
use bv_expr::{Binary, Expr, Node, Unary, binary_node, unary_node};
use bv_value::Bv;
use std::alloc::Global;
use std::test::Fail;

fn made(node: Node) -> Result<Expr, Fail>
    requires shallow { depth (term_of node) ≤ 1000 }
    requires numbered { KeepsNumberBelow64 (term_of node) }
    ensures { IfOk result (λ e. e ≡ term_of node) }
{
    match Expr::make(node) {
        Ok(expr) => Ok(expr),
        Err(_) => Err(Fail::new("the parts fit")),
    }
}

// The variable of this number, 8 bits wide.
fn x(number: u8) -> Result<Expr, Fail>
    requires { number ≤ 63 }
    ensures { IfOk result (λ e. e ≡ variable number 8) }
{
    made(Node::Var(number, 8))
}

fn number(n: u128) -> Result<Expr, Fail>
    ensures { IfOk result (λ e. e ≡ constant (of_number 8 n)) }
{
    made(Node::Const(Bv::new(8, n)))
}

fn two(alloc: Global, op: Binary, left: Expr, right: Expr) -> Result<Expr, Fail>
    requires { depth (binary op left right) ≤ 1000 }
    ensures { IfOk result (λ e. e ≡ binary op left right) }
{
    let left = Box::new(alloc, left)?;
    made(binary_node(op, left, Box::new(alloc, right)?))
}

// The operator on x and a number.
fn with_number(alloc: Global, op: Binary, n: u128) -> Result<Expr, Fail>
    ensures { IfOk result (λ e. e ≡ binary op (variable 0 8) (constant (of_number 8 n))) }
{
    let left = x(0)?;
    two(alloc, op, left, number(n)?)
}

// Whether an equation becomes true.
fn is_plain(alloc: Global, left: Expr, right: Expr) -> Result<bool, Fail>
    requires { depth (binary Binary.Eq left right) ≤ 1000 }
{
    let form = normal(alloc, two(alloc, Binary::Eq, left, right)?)?;
    let truth = made(Node::TConst(true))?;
    Ok(same(&form, &truth))
}

fn quotient_by_zero_is_zero(alloc: Global) -> Result<bool, Fail> {
    let quotient = with_number(alloc, Binary::Udiv, 0)?;
    is_plain(alloc, quotient, number(0)?)
}

fn remainder_by_zero_is_x(alloc: Global) -> Result<bool, Fail> {
    let remainder = with_number(alloc, Binary::Umod, 0)?;
    is_plain(alloc, remainder, x(0)?)
}

fn double_is_shift(alloc: Global) -> Result<bool, Fail> {
    let double = with_number(alloc, Binary::Mul, 2)?;
    is_plain(alloc, double, with_number(alloc, Binary::Shl, 1)?)
}

#[test]
fn equations_of_equal_normal_forms_are_true(rt: HostRuntime) -> Result<(), Fail> {
    let alloc = rt.alloc();
    assert!(rt; quotient_by_zero_is_zero(alloc)?);
    assert!(rt; remainder_by_zero_is_x(alloc)?);
    assert!(rt; double_is_shift(alloc)?);
    Ok(())
}

// Whether the shift of x by the constant 0 becomes the shift by the number 0, and stays so.
fn shift_by_zero_stays(alloc: Global) -> Result<bool, Fail> {
    let form = normal(alloc, with_number(alloc, Binary::Shl, 0)?)?;
    let part = Box::new(alloc, x(0)?)?;
    let shift = made(unary_node(Unary::ShlBy(0), part))?;
    Ok(same(&form, &shift))
}

// Whether `y - y` becomes 0 before the sum of x and it becomes x.
fn sum_with_difference_is_x(alloc: Global) -> Result<bool, Fail> {
    let (y, again) = (x(1)?, x(1)?);
    let difference = two(alloc, Binary::Sub, y, again)?;
    let sum = two(alloc, Binary::Add, x(0)?, difference)?;
    let form = normal(alloc, sum)?;
    Ok(same(&form, &x(0)?))
}

#[test]
fn rules_are_applied_once_and_to_parts_first(rt: HostRuntime) -> Result<(), Fail> {
    let alloc = rt.alloc();
    assert!(rt; shift_by_zero_stays(alloc)?);
    assert!(rt; sum_with_difference_is_x(alloc)?);
    Ok(())
}
