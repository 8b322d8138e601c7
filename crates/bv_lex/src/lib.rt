//! The tokens of a theorem file with their places, and the exact place of a fault of the tokens.
#![tactic(auto)]

mod classes;
mod comments;
mod cutting;
mod fault;
mod front;
mod laws;
mod names;
mod places;
mod runs;
mod signs;
mod token;

pub use cutting::lex;
pub use fault::{Fault, FaultKind, What};
pub use laws::one_cut;
pub use places::end_place;
pub use token::{Token, TokenKind};

#[cfg(test)]
mod tests;
