//! Goals of three gates and of none: one over a table of two words, and two over a table of three.

ghost use Rattle.std.specs.Prelude.{◌≡◌, ◌≢◌, ◌≤◌, ◌<◌, [], ◌∷◌, length, IfOk, OnOk};
ghost use Rattle.bv_expr.specs.Goal.{IsTruthOver};
ghost use Rattle.bv_expr.specs.Node.{term_of};
ghost use Rattle.bv_expr.specs.Sorts.{KeepsNumberBelow64};
ghost use Rattle.bv_expr.specs.Term.{depth, truth_variable};
ghost use Rattle.gate_probe.specs.Sound.{IsSound};
ghost use Rattle.gate_world.specs.Coding.{IsAtWork};
ghost use Rattle.gate_world.specs.Shown.{NamesGoals, goals_of};

use crate::build::{Work, start_building};
use crate::drawing::schedule;
use crate::event::{Event, Phase};
use crate::world::World;
use bv_expr::{Expr, Goal, Name, Node, Sort, Val};
use goal_reply::{Outcome, Reply};
use sqlite_items::Items;
use std::alloc::Global;
use std::process::Abort;
use std::test::Fail;

fn made(node: Node) -> Result<Expr, Fail>
    requires shallow { depth (term_of node) ≤ 1000 }
    requires numbered { KeepsNumberBelow64 (term_of node) }
    ensures { IfOk result (λ term. term ≡ term_of node) }
{
    match Expr::make(node) {
        Ok(term) => Ok(term),
        Err(_) => Err(Fail::new("the parts fit")),
    }
}

/// The truth of this number.
fn variable(alloc: Global, number: u8) -> Result<Box<Expr>, Fail>
    requires { number < 64 }
    ensures { IfOk result (λ term. term.value ≡ truth_variable number) }
{
    Ok(Box::new(alloc, made(Node::TVar(number))?)?)
}

/// The goal of this name over two truths of these names, with this conclusion.
#[tactic(auto, using(crate::proofs::Rows::goal_of_two))]
fn goal_of_two(
    alloc: Global,
    name: &str,
    first: &str,
    second: &str,
    concl: Expr,
) -> Result<Goal, Fail>
    requires apart { first.now ≢ second.now }
    requires fits { IsTruthOver (Sort.Truth ∷ Sort.Truth ∷ []) concl }
{
    let mut binders = Items::new(alloc);
    binders.push((Name::from_string(first.to_owned(alloc)?), Sort::Truth))?;
    binders.push((Name::from_string(second.to_owned(alloc)?), Sort::Truth))?;
    let name = Name::from_string(name.to_owned(alloc)?);
    Ok(Goal::new(name, binders, Items::new(alloc), concl, None))
}

/// The goal that two truths of these names are equal.
#[tactic(auto, using(crate::proofs::Rows::equal_fits))]
fn equal(alloc: Global, name: &str, first: &str, second: &str) -> Result<Goal, Fail>
    requires { first.now ≢ second.now }
{
    let left = variable(alloc, 0)?;
    let concl = made(Node::TEq(left, variable(alloc, 1)?))?;
    goal_of_two(alloc, name, first, second, concl)
}

/// `theorem n (a b : Bool) : a = b`
#[tactic(auto, using(crate::proofs::Rows::a_is_not_b))]
fn a_is_b(alloc: Global) -> Result<Goal, Fail> {
    equal(alloc, "n", "a", "b")
}

/// `theorem m (p q : Bool) : p = q`
#[tactic(auto, using(crate::proofs::Rows::p_is_not_q))]
fn p_is_q(alloc: Global) -> Result<Goal, Fail> {
    equal(alloc, "m", "p", "q")
}

/// `theorem f (a : Bool) : a = true`
#[tactic(auto, using(crate::proofs::Rows::a_true))]
fn a_is_true(alloc: Global) -> Result<Goal, Fail> {
    let a = variable(alloc, 0)?;
    let concl = made(Node::TEq(a, Box::new(alloc, made(Node::TConst(true))?)?))?;
    let mut binders = Items::new(alloc);
    binders.push((Name::from_string("a".to_owned(alloc)?), Sort::Truth))?;
    let name = Name::from_string("f".to_owned(alloc)?);
    Ok(Goal::new(name, binders, Items::new(alloc), concl, None))
}

/// `theorem t (a b : Bool) : true`
#[tactic(auto, using(crate::proofs::Rows::true_fits, crate::proofs::Rows::a_is_not_b))]
fn nothing(alloc: Global) -> Result<Goal, Fail> {
    let concl = made(Node::TConst(true))?;
    goal_of_two(alloc, "t", "a", "b", concl)
}

/// What is left behind at most 100 loads and claims.
fn worked(work: Work, words: &mut [u64]) -> Result<Work, Fail>
    requires work { IsAtWork words.old work }
    requires sound { IsSound words.old }
    ensures { OnOk result (IsSound words.new) }
{
    let mut next = work;
    for _ in 0..100u32 {
        next = match next {
            Work::Building(building) => building.step(words)?,
            end => return Ok(end),
        };
    }
    Ok(next)
}

#[test]
fn two_words_are_too_few(rt: HostRuntime) -> Result<(), Fail> {
    let alloc = rt.alloc();
    let goal = a_is_b(alloc)?;
    let mut words = Vec::from_elem(alloc, 0u64, 2)?;
    let end = worked(start_building(alloc, &goal, 2)?, &mut words)?;
    assert!(rt; matches!(end, Work::Full));
    Ok(())
}

/// Two goals over three words.
fn world_of<'a>(alloc: Global, goals: &'a [Goal]) -> Result<World<'a>, Fail>
    requires { length goals.now ≡ 2 }
    ensures { IfOk result (λ world. length (goals_of world) ≡ 2) }
{
    Ok(World::new(alloc, goals, 3, 1000)?)
}

/// The event, forty times.
fn forty(world: &mut World<'_>, event: Event)
    requires { NamesGoals (length (goals_of world.old)) event }
    ensures { length (goals_of world.new) ≡ length (goals_of world.old) }
{
    world.step(event);
    world.run(&[event; 39]);
}

/// The goals are built one behind the other.
fn build_both(rt: &impl Abort, world: &mut World<'_>)
    requires { length (goals_of world.old) ≡ 2 }
{
    assert!(rt; matches!(world.phase(0), Phase::Building));
    assert!(rt; world.outcome(0).is_none());
    forty(world, Event::Step(0));
    assert!(rt; matches!(world.phase(0), Phase::Searching));
    assert!(rt; matches!(world.phase(1), Phase::Building));
    forty(world, Event::Step(1));
    assert!(rt; matches!(world.phase(0), Phase::Searching));
    assert!(rt; matches!(world.phase(1), Phase::Searching));
    assert!(rt; world.words().len() == 3 && !world.words().contains(&0));
}

#[test]
fn goals_of_the_same_gates_have_the_same_words(rt: HostRuntime) -> Result<(), Fail> {
    let alloc = rt.alloc();
    let goals = [a_is_b(alloc)?, p_is_q(alloc)?];
    let mut world = world_of(alloc, &goals)?;
    build_both(&rt, &mut world);
    Ok(())
}

/// No goal cancels the second as long as none is false.
fn keep_second(rt: &impl Abort, world: &mut World<'_>)
    requires { length (goals_of world.old) ≡ 2 }
    ensures { length (goals_of world.new) ≡ 2 }
{
    world.step(Event::Cancel { goal: 1, cause: 0 });
    assert!(rt; matches!(world.phase(1), Phase::Building));
    assert!(rt; world.outcome(1).is_none());
    assert!(rt; world.words() == [0, 0, 0].as_slice());
}

/// The second goal is cancelled when the first has ended, and not before.
fn cancel_second(rt: &impl Abort, world: &mut World<'_>)
    requires { length (goals_of world.old) ≡ 2 }
    ensures { length (goals_of world.new) ≡ 2 }
{
    keep_second(rt, world);
    forty(world, Event::Step(0));
    forty(world, Event::Turn(0));
    world.step(Event::Cancel { goal: 1, cause: 0 });
    assert!(rt; matches!(world.outcome(0), Some(Outcome::Replied(Reply::False(_)))));
    assert!(rt; matches!(world.outcome(1), Some(Outcome::Cancelled(0))));
}

/// What two goals that have ended came to.
#[tactic(auto, using(crate::proofs::Pair::both_over))]
fn ended(rt: &impl Abort, world: World<'_>) -> Result<Vec<Outcome>, Fail>
    requires { length (goals_of world) ≡ 2 }
{
    assert!(rt; matches!(world.phase(0), Phase::Ended));
    assert!(rt; matches!(world.phase(1), Phase::Ended));
    Ok(world.into_outcomes()?)
}

/// The outcomes, where the first goal cancels the second.
fn outcomes_of(rt: &impl Abort, alloc: Global, goals: &[Goal]) -> Result<Vec<Outcome>, Fail>
    requires { length goals.now ≡ 2 }
{
    let mut world = world_of(alloc, goals)?;
    cancel_second(rt, &mut world);
    let counts = world.gates()?;
    assert!(rt; counts.in_cones == 0 && counts.distinct == 0);
    ended(rt, world)
}

#[test]
fn only_a_false_goal_cancels(rt: HostRuntime) -> Result<(), Fail> {
    let alloc = rt.alloc();
    let goals = [a_is_true(alloc)?, a_is_b(alloc)?];
    let outcomes = outcomes_of(&rt, alloc, &goals)?;
    assert!(rt; outcomes.len() == 2);
    assert!(rt;
        matches!(&outcomes[0], Outcome::Replied(Reply::False(values)) if values.as_slice() == [Val::Truth(false)].as_slice())
    );
    assert!(rt; matches!(&outcomes[1], Outcome::Cancelled(0)));
    Ok(())
}

/// The second goal is proved, and the first goes on.
fn prove_second(rt: &impl Abort, world: &mut World<'_>)
    requires { length (goals_of world.old) ≡ 2 }
{
    forty(world, Event::Turn(1));
    forty(world, Event::Cancel { goal: 0, cause: 1 });
    assert!(rt; matches!(world.outcome(1), Some(Outcome::Replied(Reply::Proved(_)))));
    assert!(rt; matches!(world.phase(0), Phase::Building));
}

#[test]
fn a_proved_goal_cancels_nobody(rt: HostRuntime) -> Result<(), Fail> {
    let alloc = rt.alloc();
    let goals = [a_is_b(alloc)?, nothing(alloc)?];
    let mut world = world_of(alloc, &goals)?;
    prove_second(&rt, &mut world);
    Ok(())
}

#[test]
fn a_schedule_ends_all_goals(rt: HostRuntime) -> Result<(), Fail> {
    let alloc = rt.alloc();
    let (first, second) = (a_is_b(alloc)?, nothing(alloc)?);
    let found = schedule(alloc, vec![in alloc; &first, &second]?, 1, 3, 1000)?;
    assert!(rt; found.outcomes.len() == 2 && found.counts.in_cones == 3);
    assert!(rt; matches!(&found.outcomes[0], Outcome::Replied(Reply::False(_))));
    assert!(rt; matches!(&found.outcomes[1], Outcome::Replied(Reply::Proved(_))));
    Ok(())
}
