//! What a search comes to.
ghost use Rattle.std.specs.Prelude.{◌^◌, ◌≤◌};

use cdcl_solver::Search;
use goal_alone::solve::solve;
use sat_form::Cnf;
use search_learn::Turn;
use std::alloc::{AllocError, Global};

/// The end of a search, with the steps that it spent.
#[derive(Drop)]
pub enum Found {
    Satisfiable(u64),
    /// With the search, whose log has the certificate.
    Unsatisfiable(u64, Search),
    Unknown(u64),
}

/// Searches within a budget of steps.
pub fn search(alloc: Global, cnf: &Cnf, budget: u64) -> Result<Found, AllocError>
    requires { budget ≤ 2 ^ 62 }
{
    let (searched, end) = solve(alloc, cnf, budget)?;
    let spent = searched.spent();
    match end {
        Turn::Unsat => Ok(Found::Unsatisfiable(spent, searched)),
        Turn::Sat => Ok(Found::Satisfiable(spent)),
        Turn::Budget(_) | Turn::More => Ok(Found::Unknown(spent)),
    }
}
