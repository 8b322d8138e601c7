//! A search to its end, in turns.
ghost use Rattle.std.specs.Prelude.{◌^◌, ◌≡◌, ◌≤◌, IfOk};
ghost use Rattle.search_learn.specs.Machine.{run};
ghost use Rattle.goal_alone.specs.Ended.{ended};

use cdcl_solver::Search;
use sat_form::Cnf;
use search_learn::Turn;
use std::alloc::{AllocError, Global};

/// How many steps a turn has.
const STEPS: u32 = 1_000;

/// The search over the clauses at its end, and which end that is. The only error is want of memory.
/// Takes `budget` + 1 steps at most.
pub fn solve(alloc: Global, cnf: &Cnf, budget: u64) -> Result<(Search, Turn), AllocError>
    requires { budget ≤ 2 ^ 62 }
    ensures search { IfOk result (λ r. r.0 ≡ ended cnf.now.vars cnf.now.clauses budget) }
    ensures end { IfOk result (λ r. r.1 ≡ (run cnf.now.vars cnf.now.clauses budget).state.end) }
{
    let mut search = Search::new(alloc, cnf, budget)?;
    for _turn in 0..budget / u64::from(STEPS) + 1 {
        match search.turn(STEPS)? {
            Turn::More => {}
            end => return Ok((search, end)),
        }
    }
    unreachable!()
}
