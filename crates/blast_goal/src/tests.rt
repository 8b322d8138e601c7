//! Scripts that were worked out by hand from the rows of circuits: a goal with three gates, and one whose edge is constant.
ghost use Rattle.std.specs.Prelude.{◌≡◌, ◌≤◌, ◌<◌, [], ◌∷◌, IfOk};
ghost use Rattle.bv_expr.specs.Goal.{IsTruthOver};
ghost use Rattle.bv_expr.specs.Node.{term_of};
ghost use Rattle.bv_expr.specs.Sorts.{KeepsNumberBelow64};
ghost use Rattle.bv_expr.specs.Term.{depth, truth_variable};

use crate::script;
use bv_expr::{Expr, Goal, Name, Node, Sort};
use gate_shape::{Lit23, input};
use sqlite_items::Items;
use std::alloc::Global;
use std::test::Fail;

fn made(node: Node) -> Result<Expr, Fail>
    requires shallow { depth (term_of node) ≤ 1000 }
    requires numbered { KeepsNumberBelow64 (term_of node) }
    ensures { IfOk result (λ term. term ≡ term_of node) }
{
    match Expr::make(node) {
        Ok(term) => Ok(term),
        Err(_) => Err(Fail::new("the parts fit")),
    }
}

/// The truth of this number.
fn variable(alloc: Global, number: u8) -> Result<Box<Expr>, Fail>
    requires { number < 64 }
    ensures { IfOk result (λ term. term.value ≡ truth_variable number) }
{
    Ok(Box::new(alloc, made(Node::TVar(number))?)?)
}

/// The goal over the truths `a` and `b` with this conclusion.
#[tactic(auto, using(crate::proofs::Example::goal_of_two))]
fn goal_of_two(alloc: Global, concl: Expr) -> Result<Goal, Fail>
    requires { IsTruthOver (Sort.Truth ∷ Sort.Truth ∷ []) concl }
{
    let mut binders = Items::new(alloc);
    binders.push((Name::from_string("a".to_owned(alloc)?), Sort::Truth))?;
    binders.push((Name::from_string("b".to_owned(alloc)?), Sort::Truth))?;
    let name = Name::from_string("example".to_owned(alloc)?);
    Ok(Goal::new(name, binders, Items::new(alloc), concl, None))
}

/// `b ^^ a`
#[tactic(auto, using(crate::proofs::Example::differ_fits))]
fn they_differ(alloc: Global) -> Result<Goal, Fail> {
    let b = variable(alloc, 1)?;
    let concl = made(Node::TXor(b, variable(alloc, 0)?))?;
    goal_of_two(alloc, concl)
}

/// `true`
#[tactic(auto, using(crate::proofs::Example::true_fits))]
fn nothing(alloc: Global) -> Result<Goal, Fail> {
    let concl = made(Node::TConst(true))?;
    goal_of_two(alloc, concl)
}

#[test]
fn calls_stand_in_the_order_of_the_gates_and_constant_edges_need_none(
    rt: HostRuntime,
) -> Result<(), Fail> {
    let alloc = rt.alloc();
    let (a, b) = (input(0, 0), input(1, 0));
    let p = Lit23::new(8193, false);
    let q = Lit23::new(8194, false);
    let r = Lit23::new(8195, false);
    let found = script(alloc, &they_differ(alloc)?)?;
    assert!(rt;
        found.calls.as_slice() == [(a, b), (a.not(), b.not()), (p.not(), q.not())].as_slice()
    );
    assert!(rt; found.answers.as_slice() == [p, q, r].as_slice());
    assert!(rt; matches!(&found.end, Ok(root) if *root == r.not()));
    let found = script(alloc, &nothing(alloc)?)?;
    assert!(rt; found.calls.is_empty() && found.answers.is_empty());
    assert!(rt; matches!(&found.end, Ok(root) if *root == Lit23::new(0, false)));
    Ok(())
}
