//! What is said of goals, by whichever search: a crate of its own, so that reports are written without one.
#![tactic(auto)]

mod counts;
mod reply;

pub use counts::GateCounts;
pub use reply::{Outcome, Reply};
