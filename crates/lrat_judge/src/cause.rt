//! What is said of a line; apart from the judging, so that each of its files may name a cause.

/// Why a line is refused. The numbers are clauses' ids.
#[derive(Clone, Copy, Debug, PartialEq, Eq)]
pub enum Cause {
    /// An addition's id is a clause's already.
    IdInUse,
    /// A hint names no clause.
    NoClause(u64),
    /// The clause that a hint names is neither false nor unit.
    NotUnit(u64),
    /// The hints are at an end, and no clause was false.
    NoConflict,
    /// This clause has the negated pivot, no group, and no other literal that is true.
    MissingGroup(u64),
    /// A group is for this clause, which lacks the negated pivot.
    StrangeGroup(u64),
}

/// What became of a line.
#[derive(Clone, Copy, Debug, PartialEq, Eq)]
pub enum Judged {
    /// The line is refused, and the clauses stay as they were.
    Refused(Cause),
    /// It checks, and doesn't add the empty clause.
    Kept,
    /// It checks, and adds the empty clause.
    Empty,
}
