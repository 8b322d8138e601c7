//! What `prove` and `alone` tell of a goal: the answer of a search over its clauses.
ghost use Rattle.std.specs.Prelude.{◌≤◌, ◌^◌};
ghost use Rattle.bv_expr.specs.Statement.{statement_of};
ghost use Rattle.bvd_report.specs.Shown.{told_shown};
ghost use Rattle.bvd_top.specs.Answered.{IsAnswered};

use bv_expr::Goal;
use bvd_report::Told;
use goal_alone::alone;
use goal_reply::Outcome;
use std::alloc::Global;

/// The answer to a goal within a budget of steps: proved by a certificate, false at values, or why it isn't decided.
/// Cost: the search's.
pub fn told_answer(alloc: Global, goal: &Goal, steps: u64) -> Told
    requires { steps ≤ 2 ^ 62 }
    ensures { IsAnswered steps (statement_of goal.now) (told_shown result) }
{
    Told::Outcome(Outcome::Replied(alone(alloc, goal, steps)))
}
