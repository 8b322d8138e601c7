//! The goals of a theorem file as trees over its terminals: how terms group, which binders there are, and what each proof
//! names. Apart from any reader, with the law that a whole file has exactly one reading; and the pieces of these trees, put
//! together without recursion.
#![tactic(auto)]

mod building;
mod laws;
mod outline;
mod pieces;

pub use laws::whole_files_have_one_reading;
pub use outline::{complete_pieces, goal_pieces};
pub use pieces::{Piece, Sort};

#[cfg(test)]
mod tests;
