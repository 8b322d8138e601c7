//! What `cnf` tells of a goal: the text of its clauses.
ghost use Rattle.std.specs.Prelude.{IfOk};
ghost use Rattle.bv_expr.specs.Statement.{statement_of};
ghost use Rattle.bvd_report.specs.Shown.{told_shown};
ghost use Rattle.bvd_top.specs.Clauses.{IsClausesTold};

use bv_expr::Goal;
use bvd_report::Told;
use goal_alone::{FormulaStop, formula_of};
use goal_reply::{Outcome, Reply};
use sat_form::dimacs;
use std::alloc::{AllocError, Global};

/// The clauses of a goal, or that its circuit is too deep or too large.
/// Errors: want of memory alone. Cost: O(n log n) in the goal's gates.
pub fn told_clauses(alloc: Global, goal: &Goal) -> Result<Told, AllocError>
    ensures { IfOk result (λ told. IsClausesTold (statement_of goal.now) (told_shown told)) }
{
    match formula_of(alloc, goal) {
        Ok(formula) => {
            let mut text = Vec::new(alloc);
            dimacs(alloc, &formula.cnf, &mut text)?;
            Ok(Told::Clauses(text))
        }
        Err(FormulaStop::Deep) => Ok(Told::Outcome(Outcome::Replied(Reply::Deep))),
        Err(FormulaStop::Large) => Ok(Told::Outcome(Outcome::Replied(Reply::Large))),
        Err(FormulaStop::Memory(error)) => Err(error),
    }
}
