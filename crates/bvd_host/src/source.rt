//! Where bytes come from, as a trait: its meaning is the bytes still to come, so that a reader's contract can speak of
//! the whole text however the source cuts it.
ghost use Rattle.std.specs.Prelude.{◌≡◌, ℕ, ◌+◌, ◌≤◌, ◌<◌, List, [], ◌++◌, length, take, Option, option_map, IfSome, IfOk, OnErr, OnOk};
ghost use Rattle.bvd_host.specs.Files.{Files};
ghost use Rattle.bvd_host.specs.Causes.{HasCause};
ghost use Rattle.bvd_host.specs.Given.{Gives, GivesAtMost};

use std::alloc::AllocError;
use thiserror::Error;

/// Why a source gave nothing. After any refusal what is left is unchanged.
#[derive(Debug, Drop, Error)]
pub enum SourceStop {
    /// The device failed: the source's count of faults rose in this call.
    #[error("the input failed")]
    Failed,
    /// There was no memory.
    #[error("out of memory")]
    Memory(AllocError),
}

/// Gives bytes, one piece behind the other.
///
/// Where a source tells what is left, the clauses on content hold, and whether it tells it never changes. Its counts of
/// faults and of missing files never fall. `Failed` comes only where the count of faults rose in that call, and every
/// other answer leaves that count.
pub trait Source {
    /// The bytes still to come, where the source tells them.
    ghost left: { Self → Option (List ℕ) };

    /// How many bytes more it gives at most, where the source tells it.
    ghost room: { Self → Option ℕ };

    /// The files that the source reads from, where it tells them; no read changes them.
    ghost base: { Self → Option Files };

    /// Which reference the source reads through, by its ghost name; 0 where it has none. No read changes it, so whoever
    /// lends a keeper to a source knows what the keeper holds once the source is dropped.
    ghost lender: { Self → ℕ };

    /// How often the source has failed.
    ghost faults: { Self → ℕ };

    /// How often a file was found missing.
    ghost missing: { Self → ℕ };

    /// Gives the front of what is left, and answers how many bytes; 0 for a buffer with room is the end of the input.
    fn read(&mut self, buf: &mut [u8]) -> Result<usize, SourceStop>
        ensures count { IfOk result (λ n. n ≤ length buf.new) }
        ensures bytes { IfOk result (λ n. Gives (left self.old) (left self.new) n buf.new) }
        ensures room { IfOk result (λ n. GivesAtMost (room self.old) (room self.new) n) }
        ensures err { OnErr result ((left self.new ≡ left self.old) × (room self.new ≡ room self.old)) }
        ensures base { base self.new ≡ base self.old }
        ensures lender { lender self.new ≡ lender self.old }
        ensures missing { missing self.new ≡ missing self.old }
        ensures cause { HasCause SourceStop.Failed (faults self.old) (faults self.new) result };
}
