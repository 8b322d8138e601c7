//! Replies, in a file of their own, since definitions cite them.

use bv_expr::Val;

/// What is said of a goal.
#[derive(Debug, Drop)]
pub enum Reply {
    /// The goal is valid; the text of its certificate, LRAT lines over the goal's clauses.
    Proved(Vec<u8>),
    /// These values, one for each variable in order, falsify the goal.
    False(Vec<Val>),
    /// The budget was used up, with so many steps spent.
    Budget(u64),
    /// A gate would have the level 262,144.
    Deep,
    /// There would be more than 4,000,000 different gates.
    Large,
    /// Want of memory.
    Memory,
}

/// What becomes of a goal among others: the reply that it has alone, or why it has none. A run on one thread, as `alone`,
/// leaves every goal replied to.
#[derive(Debug, Drop)]
pub enum Outcome {
    /// Its own reply.
    Replied(Reply),
    /// A shared table of gates had no room for its circuit.
    Full,
    /// It was cancelled because the goal of this number, counted from 0, is false.
    Cancelled(u32),
}
