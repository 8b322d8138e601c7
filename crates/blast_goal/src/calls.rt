//! The script of a goal: the calls by which a builder makes the goal's edge. Whoever makes the gates step by step, between
//! the steps of others, goes along it and needs neither the goal's terms nor the rows of the circuits.

ghost use Rattle.std.specs.Prelude.{◌≡◌, [], length, IfOk};
ghost use Rattle.gate_shape.specs.Builds.{Stands};
ghost use Rattle.blast_goal.specs.Circuit.{goal_row};
ghost use Rattle.blast_goal.specs.Script.{goal_gates, AreCalls, AreAnswers, EndsAs, calls_of, kept_after, list_of};

use crate::goal::edge;
use crate::recorder::{Recorder, Script};
use bv_expr::Goal;
use gate_shape::GateStop;
use std::alloc::{AllocError, Global};

/// The script of a goal, which is normalised first: the calls for conjunctions that aren't simple, by which `edge` makes the
/// goal's edge, in order, with a plain list's answers.
///
/// A call that was refused stands last, without an answer. `Deep` comes exactly where its gate is the first that would have
/// the level 262,144, `Full` exactly where it is the first that would be the 4,000,001st different one. The end is never
/// `Memory`: want of memory is the only error. Takes what `edge` takes over a plain list, and memory by the number of calls.
pub fn script(alloc: Global, goal: &Goal) -> Result<Script, AllocError>
    ensures calls { IfOk result (λ s. AreCalls [] (goal_gates goal.now.hyps goal.now.concl) s.calls.items) }
    ensures answers { IfOk result (λ s. AreAnswers [] (goal_gates goal.now.hyps goal.now.concl) s.answers.items) }
    ensures end { IfOk result (λ s. EndsAs [] (goal_gates goal.now.hyps goal.now.concl) s.answers.items s.end) }
    ensures count { IfOk result (λ s. length s.calls.items ≡ calls_of (length s.answers.items) s.end) }
    ensures root { IfOk result (λ s. IfOk s.end (λ root. Stands (list_of (kept_after [] (goal_gates goal.now.hyps goal.now.concl))) root (goal_row goal.now.hyps goal.now.concl).answer)) }
{
    let mut recorder = Recorder::new(alloc);
    match edge(alloc, &mut recorder, goal) {
        Ok(root) => Ok(recorder.whole(root)),
        Err(GateStop::Deep) => recorder.stopped(GateStop::Deep),
        Err(GateStop::Full) => recorder.stopped(GateStop::Full),
        Err(GateStop::Memory(error)) => Err(error),
    }
}
