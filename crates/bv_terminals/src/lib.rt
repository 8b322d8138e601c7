//! From the tokens of a theorem file to the terminals of its grammar.
#![tactic(auto)]

mod spellings;

pub use spellings::terminals;

#[cfg(test)]
mod tests;
