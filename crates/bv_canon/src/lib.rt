//! Canonical text reads back: the line that a goal is printed as is cut into tokens, derived and typed as that goal alone.
//!
//! The crate holds laws alone. Terms come first, as tokens; then the line of a goal, as tokens; then its bytes; and last that
//! each goal of a file can be printed so.
#![tactic(auto)]

mod laws;

pub use laws::{
    files_state_goals_of_the_syntax, goals_are_read_back, lines_are_read_back,
    printed_goals_read_back, terms_are_read_back,
};
