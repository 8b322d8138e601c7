//! From a goal to its reply.
ghost use Rattle.std.specs.Prelude.{◌≡◌, ◌≤◌, ◌^◌, ℕ, length, IfOk};
ghost use Rattle.bv_expr.specs.Goal.{AreValues, Falsifies, IsValid};
ghost use Rattle.tseitin.specs.Clauses.{AreConeOf};
ghost use Rattle.lrat_lines.specs.Replay.{TextComesTo};
ghost use Rattle.lrat_lines.specs.Replay.Verdict.{Accepted};
ghost use Rattle.goal_alone.specs.Formula.{goal_clauses, goal_edge, goal_variables};
ghost use Rattle.goal_alone.specs.Alone.{alone as answer, solved};
ghost use Rattle.goal_alone.specs.Told.{IfFalse, IfProved, IsAnswer};

use crate::formula::{Formula, FormulaStop, formula_of};
use crate::search_end::reply_of;
use crate::solve::solve;
use bv_expr::Goal;
use goal_reply::Reply;
use std::alloc::{AllocError, Global};

/// The reply to a goal that has clauses, or want of memory for the search.
fn searched(alloc: Global, goal: &Goal, formula: &Formula, budget: u64) -> Result<Reply, AllocError>
    requires budget { budget ≤ 2 ^ 62 }
    requires cone { AreConeOf (goal_edge goal.now.hyps goal.now.concl) formula.now.cone.nodes.items formula.now.cone.root }
    requires clauses { formula.now.cnf.clauses ≡ goal_clauses goal.now.hyps goal.now.concl }
    requires vars { formula.now.cnf.vars ≡ goal_variables goal.now.hyps goal.now.concl }
    ensures answer { IfOk result (λ reply. IsAnswer reply (solved goal.now.binders goal.now.hyps goal.now.concl budget)) }
    ensures proved { IfOk result (λ reply. IfProved reply (λ _. IsValid goal.now.binders goal.now.hyps goal.now.concl)) }
    ensures refuted { IfOk result (λ reply. IfFalse reply (λ values. AreValues goal.now.binders values × Falsifies goal.now.hyps goal.now.concl values)) }
    ensures accepted { IfOk result (λ reply. IfProved reply (λ text. (most : ℕ) → length text ≤ most → TextComesTo (goal_clauses goal.now.hyps goal.now.concl) most text Accepted)) }
{
    let (search, end) = solve(alloc, &formula.cnf, budget)?;
    Ok(reply_of(alloc, goal, &formula.cone, &search, &end))
}

/// The reply to a goal: its clauses are searched with this budget of steps, on this thread.
///
/// `Deep` and `Large` come where the goal's gates can't be made: at the first gate that would have the level 262,144, or
/// would be the 4,000,001st different one. Else the search's end is the reply: the trimmed log as text, values that
/// falsify the goal, in which bits that the clauses don't hang on are 0, or the steps spent. `Memory` is want of memory,
/// and may come in place of every other reply.
/// Takes time by the goal's gates, O(n log n), and `budget` + 1 steps of the search at most.
pub fn alone(alloc: Global, goal: &Goal, budget: u64) -> Reply
    requires { budget ≤ 2 ^ 62 }
    ensures answer { IsAnswer result (answer goal.now.binders goal.now.hyps goal.now.concl budget) }
    ensures proved { IfProved result (λ _. IsValid goal.now.binders goal.now.hyps goal.now.concl) }
    ensures refuted { IfFalse result (λ values. AreValues goal.now.binders values × Falsifies goal.now.hyps goal.now.concl values) }

    // A later check of the text over the goal's clauses accepts it.
    ensures accepted { IfProved result (λ text. (most : ℕ) → length text ≤ most → TextComesTo (goal_clauses goal.now.hyps goal.now.concl) most text Accepted) }
{
    match formula_of(alloc, goal) {
        Ok(formula) => match searched(alloc, goal, &formula, budget) {
            Ok(reply) => reply,
            Err(_) => Reply::Memory,
        },
        Err(FormulaStop::Deep) => Reply::Deep,
        Err(FormulaStop::Large) => Reply::Large,
        Err(FormulaStop::Memory(_)) => Reply::Memory,
    }
}
