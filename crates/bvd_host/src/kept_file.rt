//! A file of a keeper, as a source: it reads up to the size that the file had when it was opened, so a file that grows
//! meanwhile is read to its old end, and a reader knows beforehand how many bytes can come.
ghost use Rattle.std.specs.Prelude.{◌≡◌, ◌≤◌, ◌+◌, ◌-◌, length, option_map, Some, IfSome, IfOk, OnOk};
ghost use Rattle.std.specs.Option.{ForSome};
ghost use Rattle.bvd_host.specs.Files.{file_at};
ghost use Rattle.bvd_host.specs.Given.{Gives, left_at};
ghost use Rattle.bvd_host.specs.Causes.{HasCause};

use crate::keeper::{KeepStop, Keeper};
use crate::source::{Source, SourceStop};

/// Reads one file of a keeper up to a size. What is left is told where the keeper tells its files; `room`, the bytes of
/// the size that weren't given yet, is always told; the counts are the keeper's, and the base is its files.
#[derive(Drop)]
pub struct KeptFile<'a, K: Keeper> {
    keeper: &'a mut K,
    name: &'a str,
    size: u64,
    at: u64,
    ghost within: { at ≤ size },
    ghost there: { ForSome (K.files keeper.now) (λ f. option_map length (file_at f name.now) ≡ Some size) },
}

impl<'a, K: Keeper> KeptFile<'a, K> {
    /// Reads from the file's beginning on, `size` bytes at most. Where the keeper tells its files, the name is there with
    /// that length.
    pub fn new(keeper: &'a mut K, name: &'a str, size: u64) -> KeptFile<'a, K>
        requires { IfSome (K.files keeper.old) (λ f. option_map length (file_at f name.now) ≡ Some size) }
        ensures left { ⟦<KeptFile<'a, K> as Source>⟧.left result ≡ left_at name.entry.now 0 (K.files keeper.old) }
        ensures room { ⟦<KeptFile<'a, K> as Source>⟧.room result ≡ Some size }
        ensures base { ⟦<KeptFile<'a, K> as Source>⟧.base result ≡ K.files keeper.old }
        ensures same_reference { ⟦<KeptFile<'a, K> as Source>⟧.lender result ≡ keeper.entry.ghost_name }
        ensures faults { ⟦<KeptFile<'a, K> as Source>⟧.faults result ≡ K.faults keeper.old }
        ensures missing { ⟦<KeptFile<'a, K> as Source>⟧.missing result ≡ K.missing keeper.old }
    {
        KeptFile {
            keeper,
            name,
            size,
            at: 0,
        }
    }
}

/// Reads a piece more of a file.
fn read_more<K: Keeper>(
    keeper: &mut K,
    name: &str,
    size: u64,
    at: u64,
    buf: &mut [u8],
) -> Result<usize, SourceStop>
    requires within { at ≤ size }
    requires there { IfSome (K.files keeper.old) (λ f. option_map length (file_at f name.now) ≡ Some size) }
    ensures count { IfOk result (λ n. (n ≤ length buf.new) × (n ≤ size - at)) }
    ensures bytes { IfOk result (λ n. Gives (left_at name.now at (K.files keeper.old)) (left_at name.now (at + n) (K.files keeper.old)) n buf.new) }
    ensures files { K.files keeper.new ≡ K.files keeper.old }
    ensures missing { K.missing keeper.new ≡ K.missing keeper.old }
    ensures cause { HasCause SourceStop.Failed (K.faults keeper.old) (K.faults keeper.new) result }
{
    let most = (size - at).min(buf.len() as u64) as usize;
    match keeper.read_at(name, at, &mut buf[..most]) {
        Ok(count) => Ok(count),
        Err(KeepStop::Memory(e)) => Err(SourceStop::Memory(e)),
        Err(_) => Err(SourceStop::Failed),
    }
}

impl<'a, K: Keeper> Source for KeptFile<'a, K> {
    ghost left = { λ s. left_at s.name.now s.at (K.files s.keeper.now) };

    ghost room = { λ s. Some (s.size - s.at) };

    ghost base = { λ s. K.files s.keeper.now };

    ghost lender = { λ s. s.keeper.ghost_name };

    ghost faults = { λ s. K.faults s.keeper.now };

    ghost missing = { λ s. K.missing s.keeper.now };

    /// One call of the keeper's `read_at`.
    fn read(&mut self, buf: &mut [u8]) -> Result<usize, SourceStop> {
        let count = read_more(self.keeper, self.name, self.size, self.at, buf)?;
        self.at += count as u64;
        Ok(count)
    }
}
