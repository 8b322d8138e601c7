//! Why a line of a certificate is refused, as a small value that callers may keep and compare: a stop holds the
//! allocator's error and can't be copied.

use lrat_judge::Cause;

/// Why a line of a certificate is refused.
#[derive(Clone, Copy, Debug, PartialEq, Eq)]
pub enum Fault {
    /// It isn't a line of the grammar.
    Malformed,
    /// It doesn't check, for this cause.
    Because(Cause),
}
