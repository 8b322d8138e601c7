//! The gates of a list with an ordered map from the fanins of each to its place, so that a gate is
//! found without a scan.

ghost use Rattle.std.specs.Prelude.{◌≡◌, ◌≤◌, ◌<◌, ◌++◌, ◌∷◌, [], ℕ, length, IfSome, IfNone, OnOk, OnErr, slice_index_or};

use crate::lit::Lit23;
use std::alloc::{AllocError, Global};
use std::collections::BTreeMap;
use std::marker::Model;

/// A gate of a list: its fanins and its level.
#[derive(Clone, Drop)]
pub(crate) struct Entry {
    pub(crate) left: Lit23,
    pub(crate) right: Lit23,
    pub(crate) level: u32,
}

impl Copy for Entry {}

/// The gates of a list, in order, with the places of pairs of fanins.
#[derive(Drop)]
pub(crate) struct Gates {
    entries: Vec<Entry>,
    places: BTreeMap<(u32, u32), u32>,
}

impl Model for Gates {
    ghost use Rattle.std.specs.Prelude.{List};
    ghost use Rattle.gate_shape.specs.declared.gates.Entry.{Entry};
    ghost use Rattle.gate_shape.specs.Filed.{AreFiled};

    ghost Value = { List Entry };

    ghost view = { λ a. a.entries.items };

    ghost invariant = { λ a. AreFiled a.places a.entries.items };
}

impl Gates {
    /// No gate.
    pub(crate) fn new(alloc: Global) -> Gates
        ensures { result ≡ [] }
    {
        Gates {
            entries: Vec::new(alloc),
            places: BTreeMap::new(alloc),
        }
    }

    /// How many gates there are.
    pub(crate) fn len(&self) -> u32
        requires { length self.now ≤ 4000000 }
        ensures { result ≡ length self.now }
    {
        self.entries.len() as u32
    }

    /// The gate at a place.
    pub(crate) fn get(&self, at: u32) -> Entry
        requires { at < length self.now }
        ensures { (d : _) → result ≡ slice_index_or self.now at d }
    {
        self.entries[at as usize]
    }

    /// Where these fanins stand, in O(log n).
    pub(crate) fn find(&self, left: Lit23, right: Lit23) -> Option<u32>
        ensures there { IfSome result (λ s. (s < length self.now) × ((d : _) → ((slice_index_or self.now s d).left ≡ left) × ((slice_index_or self.now s d).right ≡ right))) }
        ensures nowhere { IfNone result ((k : ℕ) (d : _) → k < length self.now → (slice_index_or self.now k d).left ≡ left → (slice_index_or self.now k d).right ≡ right → ⊥) }
    {
        self.places.get(&(left.bits(), right.bits())).copied()
    }

    /// Adds a gate whose fanins stand nowhere yet, in O(log n).
    pub(crate) fn push(&mut self, left: Lit23, right: Lit23, level: u32) -> Result<(), AllocError>
        requires few { length self.old < 4000000 }
        requires new { (k : ℕ) (d : _) → k < length self.old → (slice_index_or self.old k d).left ≡ left → (slice_index_or self.old k d).right ≡ right → ⊥ }
        ensures ok { OnOk result (self.new ≡ self.old ++ record { left = left; right = right; level = level } ∷ []) }
        ensures err { OnErr result (self.new ≡ self.old) }
    {
        let at = self.entries.len() as u32;
        self.entries.push(Entry { left, right, level })?;
        if let Err(refused) = self.places.insert((left.bits(), right.bits()), at) {
            let _ = self.entries.pop();
            return Err(AllocError::from(refused));
        }
        Ok(())
    }
}
