//! Shifts and rotations by numbers, which are wires alone.

ghost use Rattle.std.specs.Prelude.{◌≡◌, ◌≤◌, ℕ, Bool, IfOk, length};
ghost use Rattle.gate_shape.specs.Row.{plain};
ghost use Rattle.gate_shape.specs.Builds.{AllKnown, edges, Builds, StandAll};
ghost use Rattle.bv_value.specs.Operations as is;
ghost use Rattle.blast_logic.specs.Words.{word};
ghost use Rattle.blast_shift.specs.Wires.{shifted_left, shifted_right, shifted_right_signed, rotated_left, rotated_right};

use crate::places::capped;
use blast_logic::{behind_copies, joined, resized};
use gate_shape::{Builder, GateStop, Lit23};
use std::alloc::Global;

/// The bits moved up by n, false below them. Lean 4 `x <<< n`. It makes no gate, and is refused only for want of memory.
/// Takes time by the width.
pub fn shl_by<B: Builder>(
    alloc: Global,
    b: &mut B,
    x: &[Lit23],
    n: u128,
) -> Result<Vec<Lit23>, GateStop>
    requires { AllKnown (B.meaning b.old) x.now }
    ensures built { let m = B.meaning b.old in Builds B.noted (λ m r. StandAll m r.items) m (B.meaning b.new) result (plain (shifted_left n (edges m x.now))) }
    ensures value { IfOk result (λ v. (bits : ℕ → ℕ → Bool) → word bits (edges (B.meaning b.new) v.items) ≡ is.shl_by (word bits (edges (B.meaning b.old) x.now)) n) }
    ensures unchanged { b.new ≡ b.old }
{
    let places = capped(n, x.len());
    behind_copies(alloc, Lit23::new(0, false), places, &x[..x.len() - places])
}

/// The bits moved down by n, false above them. Lean 4 `x >>> n`. It makes no gate, and is refused only for want of
/// memory. Takes time by the width.
pub fn lshr_by<B: Builder>(
    alloc: Global,
    b: &mut B,
    x: &[Lit23],
    n: u128,
) -> Result<Vec<Lit23>, GateStop>
    requires { AllKnown (B.meaning b.old) x.now }
    ensures built { let m = B.meaning b.old in Builds B.noted (λ m r. StandAll m r.items) m (B.meaning b.new) result (plain (shifted_right n (edges m x.now))) }
    ensures value { IfOk result (λ v. (bits : ℕ → ℕ → Bool) → word bits (edges (B.meaning b.new) v.items) ≡ is.lshr_by (word bits (edges (B.meaning b.old) x.now)) n) }
    ensures unchanged { b.new ≡ b.old }
{
    let places = capped(n, x.len());
    resized(alloc, &x[places..], Lit23::new(0, false), x.len())
}

/// The bits moved down by n, copies of the top bit above them. Lean 4 `x.sshiftRight n`. It makes no gate, and is
/// refused only for want of memory. Takes time by the width.
pub fn ashr_by<B: Builder>(
    alloc: Global,
    b: &mut B,
    x: &[Lit23],
    n: u128,
) -> Result<Vec<Lit23>, GateStop>
    requires positive { 1 ≤ length x.now }
    requires known { AllKnown (B.meaning b.old) x.now }
    ensures built { let m = B.meaning b.old in Builds B.noted (λ m r. StandAll m r.items) m (B.meaning b.new) result (plain (shifted_right_signed n (edges m x.now))) }
    ensures value { IfOk result (λ v. (bits : ℕ → ℕ → Bool) → word bits (edges (B.meaning b.new) v.items) ≡ is.ashr_by (word bits (edges (B.meaning b.old) x.now)) n) }
    ensures unchanged { b.new ≡ b.old }
{
    let places = capped(n, x.len());
    resized(alloc, &x[places..], x[x.len() - 1], x.len())
}

/// The bits moved up by n, round: those that leave at the top come in at the bottom. Lean 4 `x.rotateLeft n`. It makes
/// no gate, and is refused only for want of memory. Takes time by the width.
pub fn rotl<B: Builder>(
    alloc: Global,
    b: &mut B,
    x: &[Lit23],
    n: u128,
) -> Result<Vec<Lit23>, GateStop>
    requires positive { 1 ≤ length x.now }
    requires known { AllKnown (B.meaning b.old) x.now }
    ensures built { let m = B.meaning b.old in Builds B.noted (λ m r. StandAll m r.items) m (B.meaning b.new) result (plain (rotated_left n (edges m x.now))) }
    ensures value { IfOk result (λ v. (bits : ℕ → ℕ → Bool) → word bits (edges (B.meaning b.new) v.items) ≡ is.rotl (word bits (edges (B.meaning b.old) x.now)) n) }
    ensures unchanged { b.new ≡ b.old }
{
    let places = (n % x.len() as u128) as usize;
    let cut = x.len() - places;
    joined(alloc, &x[cut..], &x[..cut])
}

/// The bits moved down by n, round: those that leave at the bottom come in at the top. Lean 4 `x.rotateRight n`. It
/// makes no gate, and is refused only for want of memory. Takes time by the width.
pub fn rotr<B: Builder>(
    alloc: Global,
    b: &mut B,
    x: &[Lit23],
    n: u128,
) -> Result<Vec<Lit23>, GateStop>
    requires positive { 1 ≤ length x.now }
    requires known { AllKnown (B.meaning b.old) x.now }
    ensures built { let m = B.meaning b.old in Builds B.noted (λ m r. StandAll m r.items) m (B.meaning b.new) result (plain (rotated_right n (edges m x.now))) }
    ensures value { IfOk result (λ v. (bits : ℕ → ℕ → Bool) → word bits (edges (B.meaning b.new) v.items) ≡ is.rotr (word bits (edges (B.meaning b.old) x.now)) n) }
    ensures unchanged { b.new ≡ b.old }
{
    let places = (n % x.len() as u128) as usize;
    joined(alloc, &x[places..], &x[..places])
}
