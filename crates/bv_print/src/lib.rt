//! What is written of goals: their canonical text, and the values of their variables. One place for the words, so that no
//! caller writes its own.
#![tactic(auto)]

mod goals;
mod spelling;
mod terms;
mod values;

pub use goals::print_goal;
pub use values::print_values;

#[cfg(test)]
mod tests;
