//! Lines of a certificate, as values; contracts see them as lines of the definitions, through `seen`.

ghost use Rattle.lrat_lines.specs.Memory.{IsMemory};

use sat_form::Lit;
use std::alloc::{AllocError, AllocFailed};

/// A line of a certificate.
#[derive(Drop, Debug)]
pub enum Line {
    /// Adds a clause under an id. A hint above 0 is a clause's id; one below 0 is an id negated, and begins the group of
    /// that clause.
    Add {
        /// The id, 1 to 2^63 - 1.
        id: u64,
        /// The clause's literals as written; the first one is the pivot.
        lits: Vec<Lit>,
        /// The hints as written.
        hints: Vec<i64>,
    },
    /// Deletes clauses.
    Delete {
        /// The line's first id, at which nobody looks.
        id: u64,
        /// The clauses that go.
        ids: Vec<u64>,
    },
    /// An empty line or a comment.
    Skip,
}

/// Why a text gives no line.
#[derive(Drop, Debug)]
pub enum LineStop {
    /// The text isn't a line.
    Bad,
    /// There was no memory.
    Memory(AllocError),
}

impl From<AllocError> for LineStop {
    ghost from_gives = { λ _ e. IsMemory e };

    fn from(error: AllocError) -> LineStop {
        LineStop::Memory(error)
    }
}

impl<T: Drop> From<AllocFailed<T>> for LineStop {
    ghost from_gives = { λ _ e. IsMemory e };

    fn from(error: AllocFailed<T>) -> LineStop {
        LineStop::Memory(AllocError::from(error))
    }
}
