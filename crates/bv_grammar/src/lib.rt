//! The grammar of theorem files over their terminals, as rules and leftmost derivations, and the reading of a file by it
//! without recursion: in which role each terminal is taken, and the exact place of a syntax fault.
#![tactic(auto)]

mod items;
mod laws;
mod reading;
mod stack;
mod terms;
mod words;

pub use laws::{one_terminal_tells_the_rule, taken_in_one_way, whole_or_fault};
pub use reading::{End, Reading, Taken, read};
pub use words::{Fixity, Role, Terminal, Word};

#[cfg(test)]
mod tests;
