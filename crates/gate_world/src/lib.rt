//! The pure core: goals that build their circuits in one table of words, walk their cones and search their clauses, one
//! load, claim or machine step an event. In `specs` it is a state and a fold over events, and what is proved is proved of
//! every list of events, in whatever order they come.
//!
//! Each file is one thing that a goal has in hand (`build`, `walk`, `solve`), `task` is whichever of them it is, `count`
//! counts the gates of their cones, `world` has the goals over their table, and `drawing` draws events until all goals have
//! ended.
#![tactic(auto)]

mod build;
mod count;
mod drawing;
mod event;
mod laws;
mod solve;
mod task;
#[cfg(test)]
mod tests;
mod walk;
mod world;

pub use drawing::{Scheduled, schedule};
pub use event::{Event, Phase};
pub use laws::every_list_of_events;
pub use world::World;
