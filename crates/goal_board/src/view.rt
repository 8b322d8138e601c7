//! How large a board is, and what a seat of it knows.

use std::collections::LinkedList;

/// How many goals, sessions and workers there are.
#[derive(Clone, Copy, Drop)]
pub(crate) struct Size {
    pub(crate) goals: u32,
    pub(crate) sessions: u32,
    pub(crate) workers: u32,
}

/// What a seat knows: how many goals and sessions there are; its range of seat numbers, from `low` up to
/// `high`; the final words that it has seen, at their goals, with 0 where it has seen none; the sessions
/// that it claimed, the last one first, whether it holds that one still, and whether it was answered that
/// no session is left; and the number of its steps, with the place of the word that the last one took and
/// what it found there. It is of contracts alone: no value of it is made.
pub struct BoardView {
    pub goals: u64,
    pub sessions: u64,
    pub low: u64,
    pub high: u64,
    pub finals: LinkedList<u64>,
    pub claimed: LinkedList<u64>,
    pub holds: bool,
    pub none: bool,
    pub steps: u64,
    pub place: u64,
    pub found: u64,
}
