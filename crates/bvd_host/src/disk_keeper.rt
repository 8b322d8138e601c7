//! Real files, as a keeper. It tells nothing of what they hold, since no proof can see a disk: this file and the standard
//! output's are the whole edge at which the program trusts its surroundings.
ghost use Rattle.std.specs.Prelude.{◌≡◌, ◌≤◌, None, [], length, take, option_map, IfOk, OnOk, OnErr, IsErrOf};
ghost use Rattle.bvd_host.specs.Files.{with_file, with_more, IsTaken};
ghost use Rattle.bvd_host.specs.Causes.{Rose, KeeperCauses, AbsentExactly};
ghost use Rattle.bvd_host.specs.Devices.{KeeperCounts};

use crate::keeper::{KeepStop, Keeper};
use std::fs::{File, OpenFile, OpenOptions};
use std::io::{ErrorKind, Read, Seek, SeekFrom, Write};
use std::rt::Files;
use std::{fs, io};

/// The files under the current folder; a name is a path from there. Every refusal raises the count of faults, but a file
/// that `size` finds missing raises the count of missing files. Tells nothing.
#[derive(Drop)]
pub struct DiskKeeper<'a, R: Files> {
    rt: &'a R,
    faults: u64,
    missing: u64,
}

impl<'a, R: Files> DiskKeeper<'a, R> {
    /// Nothing has failed yet.
    pub fn new(rt: &'a R) -> DiskKeeper<'a, R>
        ensures faults { ⟦<DiskKeeper<'a, R> as Keeper>⟧.faults result ≡ 0 }
        ensures missing { ⟦<DiskKeeper<'a, R> as Keeper>⟧.missing result ≡ 0 }
    {
        DiskKeeper {
            rt,
            faults: 0,
            missing: 0,
        }
    }
}

/// Reads from an offset on.
fn read_from<R: Files>(rt: &R, name: &str, from: u64, buf: &mut [u8]) -> io::Result<usize> {
    let mut file = fs::open(rt, name)?;
    file.seek(SeekFrom::Start(from))?;
    file.read(buf)
}

/// Writes at the end.
fn write_at_end<R: Files>(rt: &R, name: &str, bytes: &[u8]) -> io::Result<usize> {
    let mut file = OpenOptions::new().append(true).open(rt, name)?;
    file.write(bytes)
}

impl<'a, R: Files> Keeper for DiskKeeper<'a, R> {
    ghost files = { λ k. None };

    ghost faults = { λ k. k.faults };

    ghost missing = { λ k. k.missing };

    /// Asks the file system for the file's length.
    fn size(&mut self, name: &str) -> Result<u64, KeepStop>
        ensures absent { AbsentExactly None name.now (Rose (⟦<DiskKeeper<'a, R> as Keeper>⟧.missing self.old) (⟦<DiskKeeper<'a, R> as Keeper>⟧.missing self.new)) result }
        ensures cause { KeeperCauses (⟦<DiskKeeper<'a, R> as Keeper>⟧.faults self.old) (⟦<DiskKeeper<'a, R> as Keeper>⟧.faults self.new) (⟦<DiskKeeper<'a, R> as Keeper>⟧.missing self.old) (⟦<DiskKeeper<'a, R> as Keeper>⟧.missing self.new) result }
        ensures counts { KeeperCounts (⟦<DiskKeeper<'a, R> as Keeper>⟧.faults self.old) (⟦<DiskKeeper<'a, R> as Keeper>⟧.faults self.new) (⟦<DiskKeeper<'a, R> as Keeper>⟧.missing self.old) (⟦<DiskKeeper<'a, R> as Keeper>⟧.missing self.new) result }
    {
        match fs::metadata(self.rt, name) {
            Ok(found) => Ok(found.len()),
            Err(e) => {
                if e.kind() == ErrorKind::NotFound {
                    self.missing = self.missing.saturating_add(1);
                    return Err(KeepStop::Absent);
                }
                self.faults = self.faults.saturating_add(1);
                Err(KeepStop::Failed)
            }
        }
    }

    /// Opens the file, goes to the offset and reads once.
    fn read_at(&mut self, name: &str, from: u64, buf: &mut [u8]) -> Result<usize, KeepStop>
        ensures count { IfOk result (λ n. n ≤ length buf.new) }
        ensures absent { AbsentExactly None name.now ⊥ result }
        ensures cause { KeeperCauses (⟦<DiskKeeper<'a, R> as Keeper>⟧.faults self.old) (⟦<DiskKeeper<'a, R> as Keeper>⟧.faults self.new) (⟦<DiskKeeper<'a, R> as Keeper>⟧.missing self.old) (⟦<DiskKeeper<'a, R> as Keeper>⟧.missing self.new) result }
        ensures counts { KeeperCounts (⟦<DiskKeeper<'a, R> as Keeper>⟧.faults self.old) (⟦<DiskKeeper<'a, R> as Keeper>⟧.faults self.new) (⟦<DiskKeeper<'a, R> as Keeper>⟧.missing self.old) (⟦<DiskKeeper<'a, R> as Keeper>⟧.missing self.new) result }
    {
        match read_from(self.rt, name, from, buf) {
            Ok(count) if count <= buf.len() => Ok(count),
            _ => {
                self.faults = self.faults.saturating_add(1);
                Err(KeepStop::Failed)
            }
        }
    }

    /// Makes the file, or empties it.
    fn create(&mut self, name: &str) -> Result<(), KeepStop>
        ensures ok { OnOk result (⟦<DiskKeeper<'a, R> as Keeper>⟧.files self.new ≡ option_map (λ f. with_file f name.now []) (⟦<DiskKeeper<'a, R> as Keeper>⟧.files self.old)) }
        ensures err { OnErr result (⟦<DiskKeeper<'a, R> as Keeper>⟧.files self.new ≡ ⟦<DiskKeeper<'a, R> as Keeper>⟧.files self.old) }
        ensures absent { IsErrOf result KeepStop.Absent → ⊥ }
        ensures cause { KeeperCauses (⟦<DiskKeeper<'a, R> as Keeper>⟧.faults self.old) (⟦<DiskKeeper<'a, R> as Keeper>⟧.faults self.new) (⟦<DiskKeeper<'a, R> as Keeper>⟧.missing self.old) (⟦<DiskKeeper<'a, R> as Keeper>⟧.missing self.new) result }
        ensures counts { KeeperCounts (⟦<DiskKeeper<'a, R> as Keeper>⟧.faults self.old) (⟦<DiskKeeper<'a, R> as Keeper>⟧.faults self.new) (⟦<DiskKeeper<'a, R> as Keeper>⟧.missing self.old) (⟦<DiskKeeper<'a, R> as Keeper>⟧.missing self.new) result }
    {
        match fs::create(self.rt, name) {
            Ok(_) => Ok(()),
            Err(_) => {
                self.faults = self.faults.saturating_add(1);
                Err(KeepStop::Failed)
            }
        }
    }

    /// Opens the file and writes once at its end; takes nothing of an empty piece, and then doesn't ask for the file.
    fn append(&mut self, name: &str, bytes: &[u8]) -> Result<usize, KeepStop>
        ensures count { IfOk result (λ n. IsTaken n bytes.now) }
        ensures ok { IfOk result (λ n. ⟦<DiskKeeper<'a, R> as Keeper>⟧.files self.new ≡ option_map (λ f. with_more f name.now (take n bytes.now)) (⟦<DiskKeeper<'a, R> as Keeper>⟧.files self.old)) }
        ensures err { OnErr result (⟦<DiskKeeper<'a, R> as Keeper>⟧.files self.new ≡ ⟦<DiskKeeper<'a, R> as Keeper>⟧.files self.old) }
        ensures absent { AbsentExactly None name.now ⊥ result }
        ensures cause { KeeperCauses (⟦<DiskKeeper<'a, R> as Keeper>⟧.faults self.old) (⟦<DiskKeeper<'a, R> as Keeper>⟧.faults self.new) (⟦<DiskKeeper<'a, R> as Keeper>⟧.missing self.old) (⟦<DiskKeeper<'a, R> as Keeper>⟧.missing self.new) result }
        ensures counts { KeeperCounts (⟦<DiskKeeper<'a, R> as Keeper>⟧.faults self.old) (⟦<DiskKeeper<'a, R> as Keeper>⟧.faults self.new) (⟦<DiskKeeper<'a, R> as Keeper>⟧.missing self.old) (⟦<DiskKeeper<'a, R> as Keeper>⟧.missing self.new) result }
    {
        if bytes.is_empty() {
            return Ok(0);
        }
        match write_at_end(self.rt, name, bytes) {
            Ok(count) if 0 < count && count <= bytes.len() => Ok(count),
            _ => {
                self.faults = self.faults.saturating_add(1);
                Err(KeepStop::Failed)
            }
        }
    }
}
