//! The edge of a goal: the and-inverter graph that is true exactly for the values that falsify the goal. So a goal is
//! valid exactly where its edge is never true, which is what a solver decides. A goal's script has the calls that make the
//! edge, for those who make its gates one by one.
#![tactic(auto)]

mod calls;
mod circuits;
mod goal;
mod recorder;
#[cfg(test)]
mod tests;

pub use calls::script;
pub use goal::edge;
pub use recorder::Script;
