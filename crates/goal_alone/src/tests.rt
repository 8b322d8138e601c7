//! The clauses of the goals `true` and `false` and the replies to them with ample memory, replies to goals over a vector,
//! and that goals and replies may cross threads.
ghost use Rattle.std.specs.Prelude.{◌≡◌, ◌≤◌, ◌^◌, [], ◌∷◌, IfOk};
ghost use Rattle.bv_value.specs.BitVector.{of_number};
ghost use Rattle.bv_expr.specs.Goal.{IsTruthOver};
ghost use Rattle.bv_expr.specs.Node.{term_of};
ghost use Rattle.bv_expr.specs.Sorts.{KeepsNumberBelow64};
ghost use Rattle.bv_expr.specs.Term.{depth, truth, constant, variable, binary};

use crate::{Reply, alone, formula_of};
use bv_expr::{Binary, Expr, Goal, Name, Node, Sort, Val, binary_node};
use bv_value::Bv;
use sat_form::dimacs;
use sqlite_items::Items;
use std::alloc::Global;
use std::test::Fail;

fn crosses_threads<T: Send + Sync>(_value: &T) {}

fn made(node: Node) -> Result<Expr, Fail>
    requires shallow { depth (term_of node) ≤ 1000 }
    requires numbered { KeepsNumberBelow64 (term_of node) }
    ensures { IfOk result (λ term. term ≡ term_of node) }
{
    match Expr::make(node) {
        Ok(term) => Ok(term),
        Err(_) => Err(Fail::new("the parts fit")),
    }
}

fn truth(value: bool) -> Result<Expr, Fail>
    ensures { IfOk result (λ term. term ≡ truth value) }
{
    made(Node::TConst(value))
}

/// The goal that a truth holds.
fn goal(alloc: Global, value: bool) -> Result<Goal, Fail> {
    let name = Name::from_string("example".to_owned(alloc)?);
    let concl = truth(value)?;
    Ok(Goal::new(name, Items::new(alloc), Items::new(alloc), concl, None))
}

/// The text of the clauses of the goal that a truth holds.
fn clauses_of(alloc: Global, value: bool) -> Result<Vec<u8>, Fail> {
    let mut text = Vec::new(alloc);
    match formula_of(alloc, &goal(alloc, value)?) {
        Ok(formula) => dimacs(alloc, &formula.cnf, &mut text)?,
        Err(_) => return Err(Fail::new("the goal has clauses")),
    }
    Ok(text)
}

/// The reply to the goal that a truth holds.
fn reply_to(alloc: Global, value: bool, budget: u64) -> Result<Reply, Fail>
    requires { budget ≤ 2 ^ 62 }
{
    let goal = goal(alloc, value)?;
    crosses_threads(&goal);
    Ok(alone(alloc, &goal, budget))
}

#[test]
fn clauses_of_the_two_truths_and_replies_to_them(rt: HostRuntime) -> Result<(), Fail> {
    let alloc = rt.alloc();
    assert_eq!(rt;
        clauses_of(alloc, true)?.as_slice(),
        b"p cnf 1 2\n1 0\n-1 0\n".as_slice()
    );
    assert_eq!(rt;
        clauses_of(alloc, false)?.as_slice(),
        b"p cnf 1 2\n1 0\n1 0\n".as_slice()
    );
    let proved = reply_to(alloc, true, 2)?;
    crosses_threads(&proved);
    assert!(rt;
        matches!(&proved, Reply::Proved(text) if text.as_slice() == b"3 0 1 2 0\n".as_slice())
    );
    let spent = reply_to(alloc, true, 1)?;
    assert!(rt; matches!(&spent, Reply::Budget(1)));
    let refuted = reply_to(alloc, false, 1)?;
    assert!(rt; matches!(&refuted, Reply::False(values) if values.is_empty()));
    Ok(())
}

/// `x`, 8 bits wide.
fn x(alloc: Global) -> Result<Box<Expr>, Fail>
    ensures { IfOk result (λ term. term.value ≡ variable 0 8) }
{
    Ok(Box::new(alloc, made(Node::Var(0, 8))?)?)
}

/// An operator on `x` and a number.
fn of_x(alloc: Global, op: Binary, number: u128) -> Result<Box<Expr>, Fail>
    ensures { IfOk result (λ term. term.value ≡ binary op (variable 0 8) (constant (of_number 8 number))) }
{
    let number = made(Node::Const(Bv::new(8, number)))?;
    let node = binary_node(op, x(alloc)?, Box::new(alloc, number)?);
    Ok(Box::new(alloc, made(node)?)?)
}

/// The goal over `x` with this conclusion.
#[tactic(auto, using(crate::proofs::Example::goal_of_x))]
fn goal_of_x(alloc: Global, concl: Expr) -> Result<Goal, Fail>
    requires { IsTruthOver (Sort.Vector 8 ∷ []) concl }
{
    let mut binders = Items::new(alloc);
    binders.push((Name::from_string("x".to_owned(alloc)?), Sort::Vector(8)))?;
    let name = Name::from_string("example".to_owned(alloc)?);
    Ok(Goal::new(name, binders, Items::new(alloc), concl, None))
}

/// `x * 2 = x <<< 1`
#[tactic(auto, using(crate::proofs::Example::double_fits))]
fn double_is_shift(alloc: Global) -> Result<Goal, Fail> {
    let double = of_x(alloc, Binary::Mul, 2)?;
    let concl = made(Node::Eq(double, of_x(alloc, Binary::Shl, 1)?))?;
    goal_of_x(alloc, concl)
}

/// `x ≤ x + 1`
#[tactic(auto, using(crate::proofs::Example::next_fits))]
fn next_is_no_less(alloc: Global) -> Result<Goal, Fail> {
    let x = x(alloc)?;
    let concl = made(Node::Ule(x, of_x(alloc, Binary::Add, 1)?))?;
    goal_of_x(alloc, concl)
}

#[test]
fn goals_are_normalised_and_refuted_by_values_of_their_own_variables(
    rt: HostRuntime,
) -> Result<(), Fail> {
    let alloc = rt.alloc();
    let proved = alone(alloc, &double_is_shift(alloc)?, 2);
    assert!(rt;
        matches!(&proved, Reply::Proved(text) if text.as_slice() == b"3 0 1 2 0\n".as_slice())
    );
    let refuted = alone(alloc, &next_is_no_less(alloc)?, 10_000);
    assert!(rt;
        matches!(&refuted, Reply::False(values) if values.as_slice() == [Val::Vector(Bv::new(8, 255))].as_slice())
    );
    Ok(())
}
