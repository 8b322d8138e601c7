//! Replays a certificate: reads its text in pieces and judges each line as soon as it is whole, so that a certificate of
//! any length takes the memory of its clauses and of one line.
#![tactic(auto)]

mod checker;
mod fault;
mod progress;
mod stop;
#[cfg(test)]
mod tests;

pub use checker::replay;
pub use fault::Fault;
pub use stop::ReplayStop;
