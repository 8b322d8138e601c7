//! Finds a certificate and opens it as a source. Its length is asked for once, so that a reader knows how many bytes can
//! come whatever happens to the file meanwhile.
ghost use Rattle.std.specs.Prelude.{◌≡◌, length, option_map, Some, IfSome, IfOk, OnErr, ⊤};
ghost use Rattle.bvd_host.specs.Files.{file_at};
ghost use Rattle.bvd_host.specs.Given.{left_at};
ghost use Rattle.bvd_host.specs.Causes.{Rose, HasCauses, ComesExactlyAbsent};
ghost use Rattle.cert_store.specs.Refused.{IsReached};

use crate::stop::StoreStop;
use bvd_host::{KeepStop, Keeper, KeptFile, Source};

/// The length in bytes of the file under a name.
///
/// `Absent` comes, where the keeper tells its files, exactly where the name isn't there and the keeper doesn't refuse for
/// another cause; where it doesn't tell them, only where its count of missing files rose in this call. `Failed` comes
/// only where its count of faults rose. Takes one call of `size`.
pub fn find<K: Keeper>(keeper: &mut K, name: &str) -> Result<u64, StoreStop>
    ensures size { IfSome (K.files keeper.old) (λ f. IfOk result (λ n. option_map length (file_at f name.now) ≡ Some n)) }
    ensures files { K.files keeper.new ≡ K.files keeper.old }
    ensures absent { ComesExactlyAbsent StoreStop.Absent (K.files keeper.old) name.now (Rose (K.missing keeper.old) (K.missing keeper.new)) result }
    ensures cause { HasCauses StoreStop.Failed StoreStop.Absent (K.faults keeper.old) (K.faults keeper.new) (K.missing keeper.old) (K.missing keeper.new) result }
{
    match keeper.size(name) {
        Ok(size) => Ok(size),
        Err(KeepStop::Absent) => Err(StoreStop::Absent),
        Err(KeepStop::Failed) => Err(StoreStop::Failed),
        Err(KeepStop::Memory(e)) => Err(StoreStop::Memory(e)),
    }
}

/// Opens the file under a name as a source of its bytes, up to the size that it has now: `find`, and then `KeptFile::new`.
///
/// Refuses as `find` does: what a refusal says of the keeper's counts, it says of a state of the keeper that its search
/// has reached. Takes one call of `size`.
pub fn fetch<'a, K: Keeper>(keeper: &'a mut K, name: &'a str) -> Result<KeptFile<'a, K>, StoreStop>
    ensures same_reference { IfOk result (λ file. ⟦<KeptFile<'a, K> as Source>⟧.lender file ≡ keeper.entry.ghost_name) }
    ensures left { IfOk result (λ file. ⟦<KeptFile<'a, K> as Source>⟧.left file ≡ left_at name.entry.now 0 (K.files keeper.old)) }
    ensures size { IfSome (K.files keeper.old) (λ f. IfOk result (λ file. option_map length (file_at f name.entry.now) ≡ ⟦<KeptFile<'a, K> as Source>⟧.room file)) }
    ensures base { IfOk result (λ file. ⟦<KeptFile<'a, K> as Source>⟧.base file ≡ K.files keeper.old) }
    ensures faults { IfOk result (λ file. ⟦<KeptFile<'a, K> as Source>⟧.faults file ≡ K.faults keeper.old) }
    ensures missing { IfOk result (λ file. ⟦<KeptFile<'a, K> as Source>⟧.missing file ≡ K.missing keeper.old) }
    ensures absent { ComesExactlyAbsent StoreStop.Absent (K.files keeper.old) name.entry.now ⊤ result }
    ensures refused { OnErr result (IsReached K.files K.faults K.missing keeper.old name.entry.now result) }
{
    match find(keeper, name) {
        Ok(size) => Ok(KeptFile::new(keeper, name, size)),
        Err(e) => Err(e),
    }
}
