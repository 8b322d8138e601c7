//! Files are read from a keeper, in pieces, up to the size that they have when they are opened. All files of a run are read before the first of them is parsed.
ghost use Rattle.std.specs.Prelude.{◌≡◌, ◌+◌, ◌<◌, ◌≤◌, All, map, length, vec_len, option_map, Some, IfSome, IfOk, OnOk, IsErrOf};
ghost use Rattle.bvd_host.specs.Files.{file_at};
ghost use Rattle.bvd_host.specs.Causes.{Rose, HasCause};
ghost use Rattle.bvd_top.specs.Reading.{IsFrontOf, IsRead, IsWithin, AreRead};
ghost use Rattle.bvd_top.specs.Stated.{most_bytes};

use crate::keeping::keep;
use crate::stop::Stop;
use bvd_host::{KeepStop, Keeper};
use std::alloc::Global;

/// What was read of a file: it isn't there, it has more bytes than are asked for (and wasn't read), or its bytes.
#[derive(Debug, Drop)]
pub enum FileRead {
    Absent,
    TooLong,
    Bytes(Vec<u8>),
}

/// A file of the run, as it was read: its name as the words have it, and what was read of it.
#[derive(Drop)]
pub struct Read<'a> {
    pub path: &'a str,
    pub content: FileRead,
}

/// The most bytes of a file.
const MOST_BYTES: u64 = 4_194_304;

/// Reads a piece more, of at most 4,096 bytes, and answers how many bytes it has.
fn read_piece<K: Keeper>(
    keeper: &mut K,
    name: &str,
    size: u64,
    bytes: &mut Vec<u8>,
) -> Result<usize, Stop>
    requires more { vec_len bytes.old < size }
    requires front { IfSome (K.files keeper.old) (λ f. IsFrontOf (file_at f name.now) size bytes.old.items) }
    ensures front { OnOk result (IfSome (K.files keeper.old) (λ f. IsFrontOf (file_at f name.now) size bytes.new.items)) }
    ensures count { IfOk result (λ n. vec_len bytes.new ≡ vec_len bytes.old + n) }
    ensures most { OnOk result (vec_len bytes.new ≤ size) }
    ensures some { IfSome (K.files keeper.old) (λ _. IfOk result (λ n. 0 < n)) }
    ensures files { K.files keeper.new ≡ K.files keeper.old }
    ensures missing { K.missing keeper.old ≤ K.missing keeper.new }
    ensures cause { HasCause Stop.Device (K.faults keeper.old) (K.faults keeper.new) result }
{
    let mut piece = [0u8; 4096];
    let at = bytes.len();
    let room = (size - at as u64).min(4096) as usize;
    match keeper.read_at(name, at as u64, &mut piece[..room]) {
        Ok(count) => {
            bytes.extend_from_slice(&piece[..count])?;
            Ok(count)
        }
        Err(KeepStop::Failed) => Err(Stop::Device),
        Err(KeepStop::Absent) => Ok(0),
        Err(KeepStop::Memory(_)) => Err(Stop::Memory),
    }
}

/// Reads a file of a known size.
fn read_bytes<K: Keeper>(
    alloc: Global,
    keeper: &mut K,
    name: &str,
    size: u64,
) -> Result<Vec<u8>, Stop>
    requires told { IfSome (K.files keeper.old) (λ f. option_map length (file_at f name.now) ≡ Some size) }
    ensures bytes { IfSome (K.files keeper.old) (λ f. IfOk result (λ v. file_at f name.now ≡ Some v.items)) }
    ensures most { IfOk result (λ v. vec_len v ≤ size) }
    ensures files { K.files keeper.new ≡ K.files keeper.old }
    ensures missing { K.missing keeper.old ≤ K.missing keeper.new }
    ensures cause { HasCause Stop.Device (K.faults keeper.old) (K.faults keeper.new) result }
{
    let mut bytes = Vec::new(alloc);
    'pieces: while (bytes.len() as u64) < size {
        if read_piece(keeper, name, size, &mut bytes)? == 0 {
            break;
        }
    }
    Ok(bytes)
}

/// Reads a file of at most `most` bytes.
/// Errors: the keeper failed, or want of memory. Cost: linear in the file, which is read once.
fn read_file<K: Keeper>(
    alloc: Global,
    keeper: &mut K,
    name: &str,
    most: u64,
) -> Result<FileRead, Stop>
    ensures read { IfOk result (λ r. IsRead most (K.files keeper.old) (Rose (K.missing keeper.old) (K.missing keeper.new)) name.now r) }
    ensures within { IfOk result (λ r. IsWithin most r) }
    ensures files { K.files keeper.new ≡ K.files keeper.old }
    ensures missing { K.missing keeper.old ≤ K.missing keeper.new }
    ensures cause { HasCause Stop.Device (K.faults keeper.old) (K.faults keeper.new) result }
{
    match keeper.size(name) {
        Ok(size) if size > most => Ok(FileRead::TooLong),
        Ok(size) => Ok(FileRead::Bytes(read_bytes(alloc, keeper, name, size)?)),
        Err(KeepStop::Absent) => Ok(FileRead::Absent),
        Err(KeepStop::Failed) => Err(Stop::Device),
        Err(KeepStop::Memory(_)) => Err(Stop::Memory),
    }
}

/// Reads the files of these names, in order. One of more than 4,194,304 bytes isn't read.
/// Errors: the keeper failed, or want of memory. Cost: linear in the files, each of which is read once.
pub fn read_all<'a, K: Keeper>(
    alloc: Global,
    keeper: &mut K,
    names: &[&'a str],
) -> Result<Vec<Read<'a>>, Stop>
    ensures read { IfOk result (λ reads. AreRead most_bytes (K.files keeper.old) (Rose (K.missing keeper.old) (K.missing keeper.new)) (map (λ n. n.now) names.now) reads.items) }
    ensures within { IfOk result (λ reads. All (λ r. IsWithin most_bytes r.content) reads.items) }
    ensures files { K.files keeper.new ≡ K.files keeper.old }
    ensures missing { K.missing keeper.old ≤ K.missing keeper.new }
    ensures cause { HasCause Stop.Device (K.faults keeper.old) (K.faults keeper.new) result }
{
    let mut reads = Vec::new(alloc);
    'names: for name in names {
        let content = read_file(alloc, keeper, name, MOST_BYTES)?;
        keep(
            &mut reads,
            Read {
                path: *name,
                content,
            },
        )?;
    }
    Ok(reads)
}
