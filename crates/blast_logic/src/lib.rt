//! Circuits of truths, of choices and of the bitwise operators: one function for each kind of node, over any
//! builder. A vector is a slice of literals, bit 0 first.
//!
//! Each function's clause `built` says which gates are written, in order, and which edges the answer
//! stands for; its clause `value` says what these edges mean for all values of the inputs.
#![tactic(auto)]

mod choices;
mod lists;
#[cfg(test)]
mod tests;
mod truths;
mod vectors;

pub use choices::{choose, masked};
pub use lists::{behind_copies, copied, copies, joined, resized};
pub use truths::{
    implies, truth_and, truth_const, truth_eq, truth_if, truth_not, truth_or, truth_var, truth_xor,
};
pub use vectors::{and, constant, not, or, variable, xor};
