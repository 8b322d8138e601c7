//! Judging a certificate's lines, one after the other: unit propagation in the order of a line's hints, and resolution
//! asymmetric tautologies by groups of hints (LRAT). Where lines come from is no concern of this crate.
#![tactic(auto)]

mod assumption;
mod cause;
mod clause;
mod groups;
mod hints;
mod judge;
mod known;
mod marks;
mod missing;
mod values;

pub use cause::{Cause, Judged};
pub use judge::Judge;

#[cfg(test)]
mod tests;
