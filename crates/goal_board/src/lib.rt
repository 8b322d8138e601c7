//! The ends of goals and a turnstile for sessions, which threads share without a lock: an end that a
//! thread has seen stays, whoever wrote it, and no session is claimed twice.
#![tactic(auto)]

mod answers;
mod board;
mod making;
mod rule;
mod steps;
#[cfg(test)]
mod tests;
mod view;

pub use answers::{FinishStop, GoalState, Verdict};
pub use board::{BoardSeat, GoalBoard};
pub use view::BoardView;
