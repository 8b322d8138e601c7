//! A goal whose cone is walked has its clauses, and is searched one step of the machine at a time. The end of the search
//! is its reply, by the same function as for a goal that is alone.

ghost use Rattle.std.specs.Prelude.{◌≤◌, ◌^◌, ℕ, [], IfOk};
ghost use Rattle.search_learn.specs.Machine.{Machine};
ghost use Rattle.tseitin.specs.Clauses.{AreConeOf};
ghost use Rattle.gate_world.specs.Work.{Problem, Searching, edge_of, to_walk};
ghost use Rattle.gate_world.specs.World.{turned};
ghost use Rattle.gate_world.specs.Coding.{problem_of};
ghost use Rattle.gate_world.specs.Solving.{IsBacked, IsSearchOf, IfEnded, ShowsSearch, ShowsSolved};

use bv_expr::Goal;
use cdcl_solver::Search;
use cone_walk::Cone;
use goal_alone::reply_of;
use goal_reply::Reply;
use search_learn::Turn;
use std::alloc::{AllocError, Global};
use tseitin::clauses;

/// A goal whose clauses are searched.
#[derive(Drop)]
pub struct Solving {
    cone: Cone,
    search: Search,
}

/// What a search comes to behind a step.
#[derive(Drop)]
pub enum Solved {
    More(Solving),
    Ended(Reply),
}

/// The search over the clauses of a cone. O(size of the cone). The only error is want of memory.
pub fn start_search(alloc: Global, cone: Cone, budget: u64) -> Result<Solving, AllocError>
    requires { budget ≤ 2 ^ 62 }
    ensures { IfOk result (λ s. (p : Problem) → AreConeOf (edge_of p) cone.nodes.items cone.root → ShowsSearch p budget s (to_walk p [])) }
{
    let cnf = clauses(alloc, &cone)?;
    let search = Search::new(alloc, &cnf, budget)?;
    Ok(Solving { cone, search })
}

impl Solving {
    /// One step of the machine, and the reply where it ends by it. Takes what that step takes, and at its end what the
    /// reply takes. The only error is want of memory.
    pub fn turn(self, alloc: Global, goal: &Goal) -> Result<Solved, AllocError>
        requires { (budget : ℕ) × (m : Machine) × IsSearchOf (problem_of goal.now) budget self m }
        ensures turned { IfOk result (λ solved. (budget : ℕ) (m : Machine) → IsSearchOf (problem_of goal.now) budget self m → ShowsSolved (problem_of goal.now) budget solved (turned budget (problem_of goal.now) (Searching m))) }
        ensures backed { IfOk result (λ solved. IfEnded solved (IsBacked goal.now)) }
    {
        let Solving { cone, search } = self;
        let mut search = search;
        match search.turn(1)? {
            Turn::More => Ok(Solved::More(Solving { cone, search })),
            end => match reply_of(alloc, goal, &cone, &search, &end) {
                Reply::Memory => Err(AllocError),
                reply => Ok(Solved::Ended(reply)),
            },
        }
    }
}
