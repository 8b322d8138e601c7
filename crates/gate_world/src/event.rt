//! Events and phases, in a file of their own, since definitions cite them. Goals are numbered from 0.

/// What happens next.
#[derive(Clone, Copy, Debug, PartialEq, Eq)]
pub enum Event {
    /// One load or claim of this goal.
    Step(u32),
    /// One step of the search machine of this goal.
    Turn(u32),
    /// The goal is cancelled, if it hasn't ended and its cause is replied false.
    Cancel { goal: u32, cause: u32 },
}

/// How far a goal has come.
#[derive(Clone, Copy, Debug, PartialEq, Eq)]
pub enum Phase {
    /// It builds its circuit in the table.
    Building,
    /// It walks the cone of its edge.
    Walking,
    /// Its clauses are searched.
    Searching,
    /// It has an outcome.
    Ended,
}
