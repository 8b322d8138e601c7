//! What the end of a search over a goal's clauses means for the goal: one place for every caller that searches.
ghost use Rattle.std.specs.Prelude.{◌≤◌, ℕ, All, length, IfOk};
ghost use Rattle.bv_expr.specs.Goal.{AreValues, Falsifies, IsValid};
ghost use Rattle.bv_expr.specs.Sorts.{IsExpr};
ghost use Rattle.tseitin.specs.Clauses.{AreConeOf};
ghost use Rattle.lrat_lines.specs.Replay.{TextComesTo};
ghost use Rattle.lrat_lines.specs.Replay.Verdict.{Accepted};
ghost use Rattle.goal_alone.specs.Formula.{goal_clauses, goal_edge, goal_variables};
ghost use Rattle.goal_alone.specs.Alone.{solved};
ghost use Rattle.goal_alone.specs.Ended.{HasEnded};
ghost use Rattle.goal_alone.specs.Told.{IfFalse, IfProved, IsAnswer};

use crate::certificate::certificate;
use crate::counterexample::counterexample;
use bv_expr::{Expr, Goal};
use cdcl_solver::Search;
use cone_walk::Cone;
use goal_reply::Reply;
use search_learn::Turn;
use std::alloc::{AllocError, Global};

/// Serves the proof alone: by its type each term has what the law of the goal's edge needs of it.
fn see_terms(terms: &[Expr])
    ensures { All IsExpr terms.now }
{
    for term in terms {
        let _depth = term.depth();
    }
}

/// The reply that the end of a search means, or want of memory.
fn meant(
    alloc: Global,
    goal: &Goal,
    cone: &Cone,
    search: &Search,
    end: &Turn,
) -> Result<Reply, AllocError>
    requires cone { AreConeOf (goal_edge goal.now.hyps goal.now.concl) cone.now.nodes.items cone.now.root }
    requires ended { HasEnded (goal_variables goal.now.hyps goal.now.concl) (goal_clauses goal.now.hyps goal.now.concl) search.now end.now }
    ensures answer { IfOk result (λ reply. IsAnswer reply (solved goal.now.binders goal.now.hyps goal.now.concl search.now.budget)) }
    ensures proved { IfOk result (λ reply. IfProved reply (λ _. IsValid goal.now.binders goal.now.hyps goal.now.concl)) }
    ensures refuted { IfOk result (λ reply. IfFalse reply (λ values. AreValues goal.now.binders values × Falsifies goal.now.hyps goal.now.concl values)) }
    ensures accepted { IfOk result (λ reply. IfProved reply (λ text. (most : ℕ) → length text ≤ most → TextComesTo (goal_clauses goal.now.hyps goal.now.concl) most text Accepted)) }
{
    see_terms(goal.hyps.as_slice());
    let _depth = goal.concl.depth();
    if let Some(values) = search.values() {
        return Ok(Reply::False(counterexample(alloc, goal, cone, values)?));
    }
    match end {
        Turn::Unsat => Ok(Reply::Proved(certificate(alloc, search)?)),
        Turn::Budget(spent) => Ok(Reply::Budget(*spent)),
        Turn::Sat | Turn::More => unreachable!(),
    }
}

/// The reply to a goal whose clauses were searched to this end, where the cone is that of the goal's edge: the trimmed
/// log as text, values that falsify the goal, in which bits that the clauses don't hang on are 0, or the steps spent.
/// `Memory` is want of memory, and may come in place of every other reply.
/// Takes time by the size of the log, or by the nodes of the cone and the bits of the variables times the true inputs.
pub fn reply_of(alloc: Global, goal: &Goal, cone: &Cone, search: &Search, end: &Turn) -> Reply
    requires cone { AreConeOf (goal_edge goal.now.hyps goal.now.concl) cone.now.nodes.items cone.now.root }
    requires ended { HasEnded (goal_variables goal.now.hyps goal.now.concl) (goal_clauses goal.now.hyps goal.now.concl) search.now end.now }
    ensures answer { IsAnswer result (solved goal.now.binders goal.now.hyps goal.now.concl search.now.budget) }
    ensures proved { IfProved result (λ _. IsValid goal.now.binders goal.now.hyps goal.now.concl) }
    ensures refuted { IfFalse result (λ values. AreValues goal.now.binders values × Falsifies goal.now.hyps goal.now.concl values) }

    // A later check of the text over the goal's clauses accepts it.
    ensures accepted { IfProved result (λ text. (most : ℕ) → length text ≤ most → TextComesTo (goal_clauses goal.now.hyps goal.now.concl) most text Accepted) }
{
    match meant(alloc, goal, cone, search, end) {
        Ok(reply) => reply,
        Err(_) => Reply::Memory,
    }
}
