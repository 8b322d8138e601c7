//! Terms of typed trees: at which width each part is read, and which sorts and depths terms have.
#![tactic(auto)]

mod building;
mod entry;
mod goals;
mod items;
mod laws;
mod widths;

pub use goals::{TypeStop, typed_goals};
pub use laws::{terms_are_held, terms_are_shallow, terms_are_sorted, trees_are_read};
