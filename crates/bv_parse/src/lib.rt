//! Theorem files, from their bytes to their goals or their one fault.
#![tactic(auto)]

mod faults;
mod laws;
mod parsing;

pub use laws::one_answer;
pub use parsing::parse;

#[cfg(test)]
mod tests;
