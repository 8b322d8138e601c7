//! A keeper of files by name, as a trait: its meaning is a finite map from names to bytes, so that each clause is an
//! equation between maps, which says what changes and that nothing else does.
ghost use Rattle.std.specs.Prelude.{◌≡◌, ℕ, ◌≤◌, length, take, drop, Option, Some, option_map, IfSome, IfOk, OnOk, OnErr, IsErrOf, []};
ghost use Rattle.bvd_host.specs.Files.{Files, file_at, with_file, with_more, Copies, IsTaken};
ghost use Rattle.bvd_host.specs.Causes.{Rose, KeeperCauses, AbsentExactly};

use std::alloc::AllocError;
use thiserror::Error;

/// Why a call of a keeper was refused. After any refusal the files are unchanged.
#[derive(Debug, Drop, Error)]
pub enum KeepStop {
    /// The name isn't there.
    #[error("the file isn't there")]
    Absent,
    /// The device failed: the keeper's count of faults rose in this call.
    #[error("the keeper failed")]
    Failed,
    /// There was no memory.
    #[error("out of memory")]
    Memory(AllocError),
}

/// Keeps files by name.
///
/// What a keeper means is optional: where it tells its files, the clauses on content hold, and whether it tells them
/// never changes. Its two counts, of faults and of missing files, never fall; a count "rose" also where it stands at
/// 2^64 - 1, its last value. `Failed` comes only where the count of faults rose in that call. `Absent` comes, where the
/// files are told, exactly where the name isn't there and the call is refused for no other cause; where they aren't
/// told, `size` alone answers it, and only where the count of missing files rose.
pub trait Keeper {
    /// The files, where the keeper tells them.
    ghost files: { Self → Option Files };

    /// How often the keeper has failed.
    ghost faults: { Self → ℕ };

    /// How often a file was found missing, where the files aren't told.
    ghost missing: { Self → ℕ };

    /// The length of a file in bytes.
    fn size(&mut self, name: &str) -> Result<u64, KeepStop>
        ensures size { IfSome (files self.old) (λ f. IfOk result (λ n. option_map length (file_at f name.now) ≡ Some n)) }
        ensures files { files self.new ≡ files self.old }
        ensures absent { AbsentExactly (files self.old) name.now (Rose (missing self.old) (missing self.new)) result }
        ensures cause { KeeperCauses (faults self.old) (faults self.new) (missing self.old) (missing self.new) result };

    /// Copies bytes of a file, from the offset `from` on, to the front of `buf`, and answers how many: 0 only where
    /// `buf` is empty or `from` is at or past the length.
    fn read_at(&mut self, name: &str, from: u64, buf: &mut [u8]) -> Result<usize, KeepStop>
        ensures count { IfOk result (λ n. n ≤ length buf.new) }
        ensures bytes { IfSome (files self.old) (λ f. IfOk result (λ n. IfSome (file_at f name.now) (λ content. Copies content from n buf.new))) }
        ensures files { files self.new ≡ files self.old }
        ensures absent { AbsentExactly (files self.old) name.now ⊥ result }
        ensures cause { KeeperCauses (faults self.old) (faults self.new) (missing self.old) (missing self.new) result };

    /// Makes the name stand for no bytes, whether it was there or not. Never `Absent`.
    fn create(&mut self, name: &str) -> Result<(), KeepStop>
        ensures ok { OnOk result (files self.new ≡ option_map (λ f. with_file f name.now []) (files self.old)) }
        ensures err { OnErr result (files self.new ≡ files self.old) }
        ensures absent { IsErrOf result KeepStop.Absent → ⊥ }
        ensures cause { KeeperCauses (faults self.old) (faults self.new) (missing self.old) (missing self.new) result };

    /// Adds the front of `bytes` at the end of a file, and answers how many: 0 only where `bytes` is empty.
    fn append(&mut self, name: &str, bytes: &[u8]) -> Result<usize, KeepStop>
        ensures count { IfOk result (λ n. IsTaken n bytes.now) }
        ensures ok { IfOk result (λ n. files self.new ≡ option_map (λ f. with_more f name.now (take n bytes.now)) (files self.old)) }
        ensures err { OnErr result (files self.new ≡ files self.old) }
        ensures absent { AbsentExactly (files self.old) name.now ⊥ result }
        ensures cause { KeeperCauses (faults self.old) (faults self.new) (missing self.old) (missing self.new) result };
}
