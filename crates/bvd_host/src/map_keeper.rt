//! A keeper in memory, whose calls can be made to fail: what a program left in its files can be looked at.
ghost use Rattle.std.specs.Prelude.{◌≡◌, ◌≤◌, ◌-◌, min, [], length, take, option_map, Some, None, IfSome, IfOk, IsOk, IsSome, OnOk, OnErr, IsErrOf, false};
ghost use Rattle.bvd_host.specs.Listed.{listed};
ghost use Rattle.bvd_host.specs.Files.{file_at, with_file, with_more, Copies, IsTaken};
ghost use Rattle.bvd_host.specs.Causes.{KeeperCauses, AbsentExactly};
ghost use Rattle.bvd_host.specs.Calls.{no_calls, next_call, is_failing, faults_after, FailsExactly};
ghost use Rattle.bvd_host.specs.Kept.{kept_files, read_calls, write_calls, kept_faults};

use crate::failing_calls::FailingCalls;
use crate::keeper::{KeepStop, Keeper};
use std::alloc::{AllocError, Global};
use std::collections::BTreeMap;

/// Keeps files in a map. The k-th call of `size` or `read_at`, counted together from 1, fails where k is in one list;
/// the k-th call of `create` or `append` likewise by another.
#[derive(Drop)]
pub struct MapKeeper {
    alloc: Global,
    kept: BTreeMap<String, Vec<u8>>,
    reads: FailingCalls,
    writes: FailingCalls,
    faults: u64,
}

/// The bytes under a name.
fn find<'a>(kept: &'a BTreeMap<String, Vec<u8>>, name: &str) -> Option<&'a [u8]>
    ensures { option_map (λ bytes. bytes.now) result ≡ file_at (listed kept.now) name.now }
{
    match kept.get(name) {
        Some(bytes) => Some(bytes.as_slice()),
        None => None,
    }
}

/// Puts bytes under a name.
fn put(
    alloc: Global,
    kept: &mut BTreeMap<String, Vec<u8>>,
    name: &str,
    bytes: Vec<u8>,
) -> Result<(), AllocError>
    ensures ok { OnOk result (listed kept.new ≡ with_file (listed kept.old) name.now bytes.items) }
    ensures err { OnErr result (listed kept.new ≡ listed kept.old) }
{
    kept.insert(String::from_str(alloc, name)?, bytes)?;
    Ok(())
}

impl MapKeeper {
    /// Keeps these files; `failing_reads` has the numbers of the calls of `size` and `read_at` that are to fail,
    /// `failing_writes` those of `create` and `append`, in any order.
    pub fn new(
        alloc: Global,
        files: BTreeMap<String, Vec<u8>>,
        failing_reads: Vec<u64>,
        failing_writes: Vec<u64>,
    ) -> MapKeeper
        ensures files { kept_files result ≡ listed files }
        ensures reads { read_calls result ≡ no_calls failing_reads.items }
        ensures writes { write_calls result ≡ no_calls failing_writes.items }
        ensures faults { kept_faults result ≡ 0 }
    {
        MapKeeper {
            alloc,
            kept: files,
            reads: FailingCalls::new(failing_reads),
            writes: FailingCalls::new(failing_writes),
            faults: 0,
        }
    }

    /// The files as they stand.
    pub fn files(&self) -> &BTreeMap<String, Vec<u8>>
        ensures { listed result.now ≡ kept_files self.now }
    {
        &self.kept
    }
}

impl Keeper for MapKeeper {
    ghost files = { λ k. Some (kept_files k) };

    ghost faults = { kept_faults };

    ghost missing = { λ k. 0 };

    /// Takes no memory. Time: O(log files).
    fn size(&mut self, name: &str) -> Result<u64, KeepStop>
        ensures size { IfOk result (λ n. option_map length (file_at (kept_files self.old) name.now) ≡ Some n) }
        ensures files { kept_files self.new ≡ kept_files self.old }
        ensures absent { AbsentExactly (Some (kept_files self.old)) name.now ⊥ result }
        ensures cause { KeeperCauses (kept_faults self.old) (kept_faults self.new) 0 0 result }

        // Which calls fail, and what the others answer.
        ensures counted { read_calls self.new ≡ next_call (read_calls self.old) }
        ensures writes { write_calls self.new ≡ write_calls self.old }
        ensures fails { FailsExactly KeepStop.Failed (read_calls self.new) result }
        ensures found { is_failing (read_calls self.new) ≡ false → IsSome (file_at (kept_files self.old) name.now) → IsOk result }
        ensures lacks { is_failing (read_calls self.new) ≡ false → file_at (kept_files self.old) name.now ≡ None → IsErrOf result KeepStop.Absent }
        ensures faults { kept_faults self.new ≡ faults_after (read_calls self.new) (kept_faults self.old) }
    {
        if self.reads.is_next_failing() {
            self.faults = self.faults.saturating_add(1);
            return Err(KeepStop::Failed);
        }
        match find(&self.kept, name) {
            Some(content) => Ok(content.len() as u64),
            None => Err(KeepStop::Absent),
        }
    }

    /// Copies as many bytes as there are and fit. Takes no memory. Time: O(log files + bytes copied).
    fn read_at(&mut self, name: &str, from: u64, buf: &mut [u8]) -> Result<usize, KeepStop>
        ensures count { IfOk result (λ n. n ≤ length buf.new) }
        ensures bytes { IfOk result (λ n. IfSome (file_at (kept_files self.old) name.now) (λ content. Copies content from n buf.new)) }
        ensures full { IfOk result (λ n. IfSome (file_at (kept_files self.old) name.now) (λ content. n ≡ min (length content - from) (length buf.new))) }
        ensures files { kept_files self.new ≡ kept_files self.old }
        ensures absent { AbsentExactly (Some (kept_files self.old)) name.now ⊥ result }
        ensures cause { KeeperCauses (kept_faults self.old) (kept_faults self.new) 0 0 result }

        // Which calls fail, and what the others answer.
        ensures counted { read_calls self.new ≡ next_call (read_calls self.old) }
        ensures writes { write_calls self.new ≡ write_calls self.old }
        ensures fails { FailsExactly KeepStop.Failed (read_calls self.new) result }
        ensures found { is_failing (read_calls self.new) ≡ false → IsSome (file_at (kept_files self.old) name.now) → IsOk result }
        ensures lacks { is_failing (read_calls self.new) ≡ false → file_at (kept_files self.old) name.now ≡ None → IsErrOf result KeepStop.Absent }
        ensures faults { kept_faults self.new ≡ faults_after (read_calls self.new) (kept_faults self.old) }
    {
        if self.reads.is_next_failing() {
            self.faults = self.faults.saturating_add(1);
            return Err(KeepStop::Failed);
        }
        let Some(content) = find(&self.kept, name) else {
            return Err(KeepStop::Absent);
        };
        let from = from.min(content.len() as u64) as usize;
        let rest = &content[from..];
        let count = rest.len().min(buf.len());
        buf[..count].copy_from_slice(&rest[..count]);
        Ok(count)
    }

    /// Time: O(log files + length of the name).
    fn create(&mut self, name: &str) -> Result<(), KeepStop>
        ensures ok { OnOk result (kept_files self.new ≡ with_file (kept_files self.old) name.now []) }
        ensures err { OnErr result (kept_files self.new ≡ kept_files self.old) }
        ensures absent { IsErrOf result KeepStop.Absent → ⊥ }
        ensures cause { KeeperCauses (kept_faults self.old) (kept_faults self.new) 0 0 result }

        // Which calls fail.
        ensures counted { write_calls self.new ≡ next_call (write_calls self.old) }
        ensures reads { read_calls self.new ≡ read_calls self.old }
        ensures fails { FailsExactly KeepStop.Failed (write_calls self.new) result }
        ensures faults { kept_faults self.new ≡ faults_after (write_calls self.new) (kept_faults self.old) }
    {
        if self.writes.is_next_failing() {
            self.faults = self.faults.saturating_add(1);
            return Err(KeepStop::Failed);
        }
        put(self.alloc, &mut self.kept, name, Vec::new(self.alloc)).map_err(KeepStop::Memory)
    }

    /// Takes the whole piece. The file is copied, so that a want of memory leaves it. Time: O(log files + length of the
    /// name, the file and the piece).
    fn append(&mut self, name: &str, bytes: &[u8]) -> Result<usize, KeepStop>
        ensures count { IfOk result (λ n. IsTaken n bytes.now) }
        ensures whole { IfOk result (λ n. n ≡ length bytes.now) }
        ensures ok { IfOk result (λ n. kept_files self.new ≡ with_more (kept_files self.old) name.now (take n bytes.now)) }
        ensures err { OnErr result (kept_files self.new ≡ kept_files self.old) }
        ensures absent { AbsentExactly (Some (kept_files self.old)) name.now ⊥ result }
        ensures cause { KeeperCauses (kept_faults self.old) (kept_faults self.new) 0 0 result }

        // Which calls fail, and what one answers where the name isn't there.
        ensures counted { write_calls self.new ≡ next_call (write_calls self.old) }
        ensures reads { read_calls self.new ≡ read_calls self.old }
        ensures fails { FailsExactly KeepStop.Failed (write_calls self.new) result }
        ensures lacks { is_failing (write_calls self.new) ≡ false → file_at (kept_files self.old) name.now ≡ None → IsErrOf result KeepStop.Absent }
        ensures faults { kept_faults self.new ≡ faults_after (write_calls self.new) (kept_faults self.old) }
    {
        if self.writes.is_next_failing() {
            self.faults = self.faults.saturating_add(1);
            return Err(KeepStop::Failed);
        }
        let Some(content) = find(&self.kept, name) else {
            return Err(KeepStop::Absent);
        };
        let mut longer = content.to_vec(self.alloc).map_err(KeepStop::Memory)?;
        longer.extend_from_slice(bytes).map_err(KeepStop::Memory)?;
        put(self.alloc, &mut self.kept, name, longer).map_err(KeepStop::Memory)?;
        Ok(bytes.len())
    }
}
