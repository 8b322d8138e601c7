//! The limits of a theorem file with their exact places.
#![tactic(auto)]

mod depths;
mod laws;
mod limits;
mod plain;
mod variables;

pub use depths::first_deep_term;
pub use laws::pieces_hold_terms;
pub use limits::{first_counted_limit, first_limit, first_limit_before};
pub use plain::{Met, first_plain_limit};
pub use variables::first_variable_limit;

#[cfg(test)]
mod tests;
