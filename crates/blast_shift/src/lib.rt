//! Circuits of shifts, rotations and parts of bit vectors: one function for each kind of node, over any builder, on
//! lists of literals, bit 0 first.
//!
//! Each function's clause `built` says which gates are written, in order, and which edges the answer stands for; its
//! clause `value` says that the answer writes what the operator on bit vectors gives at what the arguments write, for
//! all values of the inputs.
#![tactic(auto)]

mod parts;
mod places;
mod shifts;
mod stages;
#[cfg(test)]
mod tests;

pub use parts::{append, bit, extract, msb, set_width, sign_extend};
pub use shifts::{ashr_by, lshr_by, rotl, rotr, shl_by};
pub use stages::{ashr, lshr, shl};
