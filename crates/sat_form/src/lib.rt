//! Literals, clauses, formulas in conjunctive normal form, and their DIMACS text: the language that the
//! encoder of circuits, the search and the checker of certificates share.
#![tactic(auto)]

mod clauses;
mod cnf;
mod dimacs_text;
mod lit;
mod truth;

pub use clauses::Clauses;
pub use cnf::Cnf;
pub use dimacs_text::dimacs;
pub use lit::Lit;

#[cfg(test)]
mod tests;
