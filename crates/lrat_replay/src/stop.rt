//! Why a replay ends without an Ok. The refusals name the line, so that a person finds it in the text.

ghost use Rattle.std.specs.Prelude.{◌≡◌};
ghost use Rattle.lrat_judge.specs.Judged.{cause_shown};
ghost use Rattle.lrat_lines.specs.Replay.Fault.{Because};
ghost use Rattle.lrat_replay.specs.Answer.{refusal};

use lrat_judge::Cause;
use std::alloc::AllocError;
use thiserror::Error;

/// Why a certificate isn't accepted. The first number is that of the line, from 1; the second one is a clause's id.
#[derive(Debug, Drop, Error)]
pub enum ReplayStop {
    /// The line isn't one of the grammar.
    #[error("line {0} is malformed")]
    Bad(u64),
    /// The line adds a clause under an id that is in use.
    #[error("line {0}: the id is in use")]
    IdInUse(u64),
    /// A hint names a clause that isn't there.
    #[error("line {0}: there is no clause {1}")]
    NoClause(u64, u64),
    /// A hint's clause is neither unit nor wholly false.
    #[error("line {0}: clause {1} is not unit")]
    NotUnit(u64, u64),
    /// The hints end without a conflict.
    #[error("line {0}: the hints lead to no conflict")]
    NoConflict(u64),
    /// A clause with the negated pivot has no group.
    #[error("line {0}: clause {1} has no group")]
    MissingGroup(u64, u64),
    /// A group's clause lacks the negated pivot.
    #[error("line {0}: clause {1} lacks the negated pivot")]
    StrangeGroup(u64, u64),
    /// The text ends, and no line added the empty clause.
    #[error("no line adds the empty clause")]
    NoEmpty,
    /// There are more bytes than may be taken, and those taken don't decide.
    #[error("the certificate is too long")]
    TooLong,
    /// The source failed: its count of faults rose in this call.
    #[error("the certificate can't be read")]
    ReadFault,
    /// There was no memory.
    #[error("out of memory")]
    Memory(AllocError),
}

/// The refusal of a line for the judge's cause.
pub(crate) fn refused(number: u64, cause: Cause) -> ReplayStop
    ensures { result ≡ refusal number (Because (cause_shown cause)) }
{
    match cause {
        Cause::IdInUse => ReplayStop::IdInUse(number),
        Cause::NoClause(id) => ReplayStop::NoClause(number, id),
        Cause::NotUnit(id) => ReplayStop::NotUnit(number, id),
        Cause::NoConflict => ReplayStop::NoConflict(number),
        Cause::MissingGroup(id) => ReplayStop::MissingGroup(number, id),
        Cause::StrangeGroup(id) => ReplayStop::StrangeGroup(number, id),
    }
}

impl From<AllocError> for ReplayStop {
    ghost use Rattle.lrat_replay.specs.Memory.{IsMemory};

    ghost from_gives = { λ error stop. IsMemory stop };

    fn from(error: AllocError) -> ReplayStop {
        ReplayStop::Memory(error)
    }
}
