//! Where bytes go, as a trait: its meaning is the bytes written so far.
ghost use Rattle.std.specs.Prelude.{◌≡◌, ℕ, ◌++◌, List, take, Option, option_map, IfOk, OnErr};
ghost use Rattle.bvd_host.specs.Files.{IsTaken};
ghost use Rattle.bvd_host.specs.Causes.{HasCause};

use std::alloc::AllocError;
use thiserror::Error;

/// Why a sink took nothing. After any refusal what was written is unchanged.
#[derive(Debug, Drop, Error)]
pub enum SinkStop {
    /// The device failed, or took nothing of a piece with bytes: the sink's count of faults rose in this call.
    #[error("the output failed")]
    Failed,
    /// There was no memory.
    #[error("out of memory")]
    Memory(AllocError),
}

/// Takes bytes, one piece behind the other.
///
/// Where a sink tells what was written, the clauses on content hold, and whether it tells it never changes. Its count of
/// faults never falls, and `Failed` comes only where it rose in that call.
pub trait Sink {
    /// What was written, where the sink tells it.
    ghost written: { Self → Option (List ℕ) };

    /// How often the sink has failed.
    ghost faults: { Self → ℕ };

    /// Takes the front of a piece, and answers how many bytes: 0 only where the piece is empty.
    fn write(&mut self, bytes: &[u8]) -> Result<usize, SinkStop>
        ensures count { IfOk result (λ n. IsTaken n bytes.now) }
        ensures ok { IfOk result (λ n. written self.new ≡ option_map (λ w. w ++ take n bytes.now) (written self.old)) }
        ensures err { OnErr result (written self.new ≡ written self.old) }
        ensures cause { HasCause SinkStop.Failed (faults self.old) (faults self.new) result };
}
