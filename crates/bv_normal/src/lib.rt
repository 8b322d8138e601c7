//! The normal form of terms and goals: rules that fold constants and cut down operators on 0, 1, powers of two and
//! equal operands, each applied at most once at a node, so that circuits are built of what is left.
#![tactic(auto)]

mod building;
mod choices;
mod comparisons;
mod constants;
mod folding;
mod goals;
mod operands;
mod parts;
mod quotients;
mod rewrites;
mod same_terms;
mod shifts;
mod steps;
mod terms;
#[cfg(test)]
mod tests;
mod widths;

pub use goals::normal_goal;
pub use terms::normal;
