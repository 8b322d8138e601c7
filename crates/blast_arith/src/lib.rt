//! Circuits of sums and of comparisons of bit vectors: one function for each kind of node, over any
//! builder.
//!
//! A vector is a slice of literals, bit 0 first. Each function's clause `built` says which gates are
//! written, in order, and which edges the answer stands for; its clause `value` says what they mean
//! for all values of the inputs, by the operators of `bv_value`.
#![tactic(auto)]

mod comparisons;
mod sums;
#[cfg(test)]
mod tests;

pub use comparisons::{eq, sle, slt, ule, ult};
pub use sums::{add, neg, sub};
