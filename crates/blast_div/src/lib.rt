//! Circuits of quotients and of remainders of bit vectors: one function for each kind of node, over
//! any builder.
//!
//! A vector is a slice of literals, bit 0 first. Each function's clause `built` says which gates are
//! written, in order, and which edges the answer stands for; its clause `value` says what they mean
//! for all values of the inputs, by the operators of `bv_value`.
#![tactic(auto)]

mod signed;
#[cfg(test)]
mod tests;
mod unsigned;

pub use signed::{sdiv, smod, srem};
pub use unsigned::{divide, udiv, umod};
