//! A table of gates that threads share without a lock: each gate stands in it once, whoever built it,
//! and what a seat knows it knows for good.
#![tactic(auto)]

mod build;
mod builder;
mod building;
mod rule;
mod seats;
mod steps;
#[cfg(test)]
mod tests;

pub use builder::SeatBuilder;
pub use seats::{GateSeat, GateTable};
