//! Places in a text, and numbers as texts write them: what readers and printers of every format here share.
#![tactic(auto)]

mod cursor;
mod numbers;
mod print;

pub use cursor::{Cursor, Place};
pub use numbers::{NumberStop, number};
pub use print::{push_hex, push_number};

#[cfg(test)]
mod tests;
