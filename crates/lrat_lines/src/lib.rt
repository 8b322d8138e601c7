//! LRAT text, the language of certificates: its grammar read and written line by line, and, as definitions, when lines
//! check over clauses and what a text comes to, so that checker, trimmer and search speak of one meaning.
#![tactic(auto)]

mod laws;
mod line;
mod number;
mod reading;
mod word;
mod writing;

pub use laws::{
    checked_lines_are_accepted, checked_lines_refute, one_reading, written_lines_read_back,
};
pub use line::{Line, LineStop};
pub use reading::read_line;
pub use writing::{write_addition, write_line};

#[cfg(test)]
mod tests;
