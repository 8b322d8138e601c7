//! Writes a certificate in pieces. A keeper may take a piece in part: the next piece then begins with the rest of it, until
//! the file is whole or the keeper refuses.
ghost use Rattle.std.specs.Prelude.{◌≡◌, [], take, option_map, OnOk, OnErr, IfOk, IfSome, IsSome, IsErrOf};
ghost use Rattle.bvd_host.specs.Files.{file_at, with_file, with_more, IsTaken};
ghost use Rattle.bvd_host.specs.Causes.{HasCause};
ghost use Rattle.cert_store.specs.CutShort.{IsCutShort};

use crate::stop::StoreStop;
use bvd_host::{KeepStop, Keeper};

/// How many bytes are handed to the keeper at once.
const PIECE: usize = 65536;

/// Makes the name stand for no bytes.
fn make<K: Keeper>(keeper: &mut K, name: &str) -> Result<(), StoreStop>
    ensures ok { OnOk result (K.files keeper.new ≡ option_map (λ f. with_file f name.now []) (K.files keeper.old)) }
    ensures err { OnErr result (K.files keeper.new ≡ K.files keeper.old) }
    ensures absent { IsErrOf result StoreStop.Absent → ⊥ }
    ensures cause { HasCause StoreStop.Failed (K.faults keeper.old) (K.faults keeper.new) result }
    ensures missing { K.missing keeper.new ≡ K.missing keeper.old }
{
    match keeper.create(name) {
        Ok(()) => Ok(()),
        Err(KeepStop::Absent) => Err(StoreStop::Absent),
        Err(KeepStop::Failed) => Err(StoreStop::Failed),
        Err(KeepStop::Memory(e)) => Err(StoreStop::Memory(e)),
    }
}

/// Adds a piece, or the front of one, at the end of a file that is there.
fn add_piece<K: Keeper>(keeper: &mut K, name: &str, bytes: &[u8]) -> Result<usize, StoreStop>
    requires { IfSome (K.files keeper.old) (λ f. IsSome (file_at f name.now)) }
    ensures count { IfOk result (λ n. IsTaken n bytes.now) }
    ensures ok { IfOk result (λ n. K.files keeper.new ≡ option_map (λ f. with_more f name.now (take n bytes.now)) (K.files keeper.old)) }
    ensures err { OnErr result (K.files keeper.new ≡ K.files keeper.old) }
    ensures absent { IsErrOf result StoreStop.Absent → ⊥ }
    ensures cause { HasCause StoreStop.Failed (K.faults keeper.old) (K.faults keeper.new) result }
    ensures missing { K.missing keeper.new ≡ K.missing keeper.old }
{
    match keeper.append(name, bytes) {
        Ok(count) => Ok(count),
        Err(KeepStop::Absent) => Err(StoreStop::Absent),
        Err(KeepStop::Failed) => Err(StoreStop::Failed),
        Err(KeepStop::Memory(e)) => Err(StoreStop::Memory(e)),
    }
}

/// Makes the name stand for the text, whatever it stood for, and leaves every other file.
///
/// After a refusal the name stands for what it stood for before or for the first bytes of the text. `Failed` comes only
/// where the keeper's count of faults rose in this call, and `Absent` never comes. The text is handed over in pieces of at
/// most 65,536 bytes. Takes no memory of its own. Time: O(length of the text) and the keeper's calls, of which there is one
/// and one more for each piece that it takes.
pub fn put<K: Keeper>(keeper: &mut K, name: &str, text: &[u8]) -> Result<(), StoreStop>
    ensures ok { OnOk result (K.files keeper.new ≡ option_map (λ f. with_file f name.now text.now) (K.files keeper.old)) }
    ensures err { OnErr result (IsCutShort name.now text.now (K.files keeper.old) (K.files keeper.new)) }
    ensures absent { IsErrOf result StoreStop.Absent → ⊥ }
    ensures cause { HasCause StoreStop.Failed (K.faults keeper.old) (K.faults keeper.new) result }
    ensures missing { K.missing keeper.new ≡ K.missing keeper.old }
{
    make(keeper, name)?;
    let mut at = 0usize;
    'pieces: while at < text.len() {
        let size = (text.len() - at).min(PIECE);
        at += add_piece(keeper, name, &text[at..at + size])?;
    }
    Ok(())
}
