//! One search for a gate's word in a table of words, as moves that a table shared by threads and a
//! plain list of words make alike; and, in `specs`, which words and views such a table may have.
#![tactic(auto)]

mod laws;
mod prober;
#[cfg(test)]
mod tests;
mod view;

pub use laws::{sound_words, whole_searches};
pub use prober::{Move, Prober};
pub use view::View;
