//! A goal's edge: all hypotheses, and not the conclusion, of the goal's normal form.

ghost use Rattle.std.specs.Prelude.{IfOk, OnOk, All};
ghost use Rattle.gate_shape.specs.Builds.{Known, edge as edge_of, Builds, OneEach, Stands};
ghost use Rattle.bv_expr.specs.Sorts.{IsExpr};
ghost use Rattle.blast_goal.specs.Circuit.{and_hypothesis, all_hypotheses, and_not_conclusion, falsifying_row, goal_row};
ghost use Rattle.blast_goal.specs.Falsified.{IsTrueWhereFalsified, IsTrueWhereBitsFalsify};

use crate::circuits::truth;
use bv_expr::{Expr, Goal};
use bv_normal::normal_goal;
use gate_shape::{Builder, GateStop, Lit23};
use std::alloc::Global;

/// The conjunction of an edge and the circuit of a hypothesis.
fn with_hypothesis<B: Builder>(
    alloc: Global,
    b: &mut B,
    e: Lit23,
    hyp: &Expr,
) -> Result<Lit23, GateStop>
    requires { Known (B.meaning b.old) e }
    ensures built { let m = B.meaning b.old in Builds B.noted Stands m (B.meaning b.new) result (and_hypothesis (edge_of m e) hyp.now) }
    ensures expr { IsExpr hyp.now }
{
    let c = truth(alloc, b, hyp)?;
    b.and(e, c)
}

/// The conjunction of an edge and the negated circuit of a conclusion.
fn without_conclusion<B: Builder>(
    alloc: Global,
    b: &mut B,
    e: Lit23,
    concl: &Expr,
) -> Result<Lit23, GateStop>
    requires { Known (B.meaning b.old) e }
    ensures built { let m = B.meaning b.old in Builds B.noted Stands m (B.meaning b.new) result (and_not_conclusion (edge_of m e) concl.now) }
    ensures once { OnOk result (OneEach (B.meaning b.new)) }
    ensures expr { IsExpr concl.now }
{
    let c = truth(alloc, b, concl)?;
    b.and(e, c.not())
}

/// The edge of all hypotheses.
fn hypotheses<B: Builder>(alloc: Global, b: &mut B, hyps: &[Expr]) -> Result<Lit23, GateStop>
    ensures built { Builds B.noted Stands (B.meaning b.old) (B.meaning b.new) result (all_hypotheses hyps.now) }
    ensures exprs { OnOk result (All IsExpr hyps.now) }
{
    let mut e = Lit23::new(0, true);
    for hyp in hyps {
        e = with_hypothesis(alloc, b, e, hyp)?;
    }
    Ok(e)
}

/// The edge of a goal as it stands: e is true; for each hypothesis e is the conjunction of e and its circuit; the edge is
/// the conjunction of e and the negated circuit of the conclusion.
fn falsifying<B: Builder>(alloc: Global, b: &mut B, goal: &Goal) -> Result<Lit23, GateStop>
    ensures built { Builds B.noted Stands (B.meaning b.old) (B.meaning b.new) result (falsifying_row goal.now.hyps goal.now.concl) }
    ensures once { OnOk result (OneEach (B.meaning b.new)) }
    ensures value { IfOk result (λ l. IsTrueWhereFalsified goal.now.binders goal.now.hyps goal.now.concl (edge_of (B.meaning b.new) l)) }
    ensures read { IfOk result (λ l. IsTrueWhereBitsFalsify goal.now.binders goal.now.hyps goal.now.concl (edge_of (B.meaning b.new) l)) }
{
    let e = hypotheses(alloc, b, goal.hyps.as_slice())?;
    without_conclusion(alloc, b, e, &goal.concl)
}

/// The goal's edge, which is true exactly for the values that falsify the goal. The goal is normalised first; then e is
/// true; for each hypothesis e is the conjunction of e and its circuit; the edge is the conjunction of e and the negated
/// circuit of the conclusion.
///
/// Where it answers Ok, the builder knows each gate of the row, noted in order. `Deep` and `Full` are the answers of the
/// builder at one of these gates, those before it being known and noted; want of memory may come at any time. Literals
/// known before keep their edges, and equal edges have equal literals. The clauses `value` and `read` speak of the goal
/// itself: the edge hangs on the bits of the goal's variables alone, each below its width. Takes the time that
/// `normal_goal` takes, a call of the builder for each gate, time by the number of nodes and of gates, and stack by the
/// depth of the terms, which is 1,000 at most.
pub fn edge<B: Builder>(alloc: Global, b: &mut B, goal: &Goal) -> Result<Lit23, GateStop>
    ensures built { Builds B.noted Stands (B.meaning b.old) (B.meaning b.new) result (goal_row goal.now.hyps goal.now.concl) }
    ensures once { OnOk result (OneEach (B.meaning b.new)) }
    ensures value { IfOk result (λ l. IsTrueWhereFalsified goal.now.binders goal.now.hyps goal.now.concl (edge_of (B.meaning b.new) l)) }
    ensures read { IfOk result (λ l. IsTrueWhereBitsFalsify goal.now.binders goal.now.hyps goal.now.concl (edge_of (B.meaning b.new) l)) }
{
    let normal = normal_goal(alloc, goal)?;
    falsifying(alloc, b, &normal)
}
