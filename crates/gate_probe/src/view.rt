//! What a seat of a table has seen.

use std::collections::LinkedList;

/// What a seat has seen: the words at their places, with 0 where it has seen none, the same of a seat
/// that is being joined into it, and the number of its loads and claims. It is of contracts alone: no
/// value of it is made.
pub struct View {
    pub seen: LinkedList<u64>,
    pub beside: LinkedList<u64>,
    pub steps: u64,
}
