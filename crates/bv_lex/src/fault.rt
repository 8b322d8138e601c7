//! The faults of a theorem file, with their places.

use bvd_text::Place;
use std::alloc::AllocError;

/// A limit that a file may meet. Of several limits at one token the one that stands first here is told.
#[derive(Clone, Copy, Debug, PartialEq, Eq)]
pub enum What {
    /// A numeral of 2^128 or more.
    Number,
    /// A width of 0 or above 128.
    Width,
    /// Terms that are nested too deeply.
    Depth,
    /// Too many nodes in the terms of a goal.
    Nodes,
    /// Too many variables of a goal.
    Variables,
    /// Too many goals.
    Goals,
}

/// What is wrong with a file.
#[derive(Clone, Copy, Debug, PartialEq, Eq)]
pub enum FaultKind {
    /// No token begins there, or the bytes aren't UTF-8.
    Lex,
    /// The token can't stand there.
    Syntax,
    /// The term has no type.
    Typing,
    /// A limit is met.
    Limit(What),
    /// There was no memory; the place says nothing.
    Memory(AllocError),
}

/// A fault, and where it stands.
#[derive(Clone, Copy, Debug, PartialEq, Eq)]
pub struct Fault {
    /// What is wrong.
    pub kind: FaultKind,
    /// The place of its first byte.
    pub place: Place,
}

impl From<AllocError> for Fault {
    ghost use Rattle.bv_lex.specs.Cut.{IsMemory};

    ghost from_gives = { λ _ f. IsMemory f.kind };

    fn from(error: AllocError) -> Fault {
        Fault {
            kind: FaultKind::Memory(error),
            place: Place { line: 1, column: 1 },
        }
    }
}
