//! One goal on one thread, from its terms to the reply: its gates in a plain list, the cone of its edge, Tseitin's
//! clauses, a search over them, and what the search's end means for the goal. A reply hangs on nothing but the goal and
//! the budget. Every command that solves, prints or checks clauses begins here.
#![tactic(auto)]

pub mod certificate;
mod cone;
mod counterexample;
mod formula;
mod goal;
mod search_end;
pub mod solve;
#[cfg(test)]
mod tests;

pub use cone::cone_of;
pub use formula::{Formula, FormulaStop, formula_of};
pub use goal::alone;
pub use goal_reply::{Outcome, Reply};
pub use search_end::reply_of;
