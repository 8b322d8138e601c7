//! Parts of bit vectors, which are wires alone.

ghost use Rattle.gate_shape.specs.Edge.{value as value_of};
ghost use Rattle.std.specs.Prelude.{◌≡◌, ◌≤◌, ℕ, Bool, IfOk, IsOk, length};
ghost use Rattle.gate_shape.specs.Row.{plain};
ghost use Rattle.gate_shape.specs.Builds.{Stands, edge, AllKnown, edges, Builds, StandAll};
ghost use Rattle.bv_value.specs.Operations as is;
ghost use Rattle.blast_logic.specs.Words.{word};
ghost use Rattle.blast_logic.specs.Words.{bit_at, top_bit};
ghost use Rattle.blast_shift.specs.Wires.{appended, extracted, with_width, sign_extended};

use crate::places::capped;
use blast_logic::{joined, resized};
use gate_shape::{Builder, GateStop, Lit23};
use std::alloc::Global;

/// The bits of x above those of y. Lean 4 `x ++ y`. It makes no gate, and is refused only for want of memory. Takes time
/// by both widths.
pub fn append<B: Builder>(
    alloc: Global,
    b: &mut B,
    x: &[Lit23],
    y: &[Lit23],
) -> Result<Vec<Lit23>, GateStop>
    requires left { AllKnown (B.meaning b.old) x.now }
    requires right { AllKnown (B.meaning b.old) y.now }
    ensures built { let m = B.meaning b.old in Builds B.noted (λ m r. StandAll m r.items) m (B.meaning b.new) result (plain (appended (edges m x.now) (edges m y.now))) }
    ensures value { IfOk result (λ v. (bits : ℕ → ℕ → Bool) → word bits (edges (B.meaning b.new) v.items) ≡ is.append (word bits (edges (B.meaning b.old) x.now)) (word bits (edges (B.meaning b.old) y.now))) }
    ensures unchanged { b.new ≡ b.old }
{
    joined(alloc, y, x)
}

/// `len` bits from place `start` up, false where x has none. Lean 4 `x.extractLsb' start len`. It makes no gate, and is
/// refused only for want of memory. Takes time by `len`.
pub fn extract<B: Builder>(
    alloc: Global,
    b: &mut B,
    x: &[Lit23],
    start: u128,
    len: u8,
) -> Result<Vec<Lit23>, GateStop>
    requires { AllKnown (B.meaning b.old) x.now }
    ensures built { let m = B.meaning b.old in Builds B.noted (λ m r. StandAll m r.items) m (B.meaning b.new) result (plain (extracted start len (edges m x.now))) }
    ensures value { IfOk result (λ v. (bits : ℕ → ℕ → Bool) → word bits (edges (B.meaning b.new) v.items) ≡ is.extract (word bits (edges (B.meaning b.old) x.now)) start len) }
    ensures unchanged { b.new ≡ b.old }
{
    let from = capped(start, x.len());
    resized(alloc, &x[from..], Lit23::new(0, false), len as usize)
}

/// The low bits, false above them. Lean 4 `x.setWidth width`. It makes no gate, and is refused only for want of memory.
/// Takes time by the new width.
pub fn set_width<B: Builder>(
    alloc: Global,
    b: &mut B,
    x: &[Lit23],
    width: u8,
) -> Result<Vec<Lit23>, GateStop>
    requires { AllKnown (B.meaning b.old) x.now }
    ensures built { let m = B.meaning b.old in Builds B.noted (λ m r. StandAll m r.items) m (B.meaning b.new) result (plain (with_width width (edges m x.now))) }
    ensures value { IfOk result (λ v. (bits : ℕ → ℕ → Bool) → word bits (edges (B.meaning b.new) v.items) ≡ is.set_width (word bits (edges (B.meaning b.old) x.now)) width) }
    ensures unchanged { b.new ≡ b.old }
{
    resized(alloc, x, Lit23::new(0, false), width as usize)
}

/// The low bits, copies of the top bit above them. Lean 4 `x.signExtend width`. It makes no gate, and is refused only for
/// want of memory. Takes time by the new width.
pub fn sign_extend<B: Builder>(
    alloc: Global,
    b: &mut B,
    x: &[Lit23],
    width: u8,
) -> Result<Vec<Lit23>, GateStop>
    requires positive { 1 ≤ length x.now }
    requires known { AllKnown (B.meaning b.old) x.now }
    ensures built { let m = B.meaning b.old in Builds B.noted (λ m r. StandAll m r.items) m (B.meaning b.new) result (plain (sign_extended width (edges m x.now))) }
    ensures value { IfOk result (λ v. (bits : ℕ → ℕ → Bool) → word bits (edges (B.meaning b.new) v.items) ≡ is.sign_extend (word bits (edges (B.meaning b.old) x.now)) width) }
    ensures unchanged { b.new ≡ b.old }
{
    resized(alloc, x, x[x.len() - 1], width as usize)
}

/// Bit n, false from the width on. Lean 4 `x.getLsbD n`. It makes no gate and is never refused.
pub fn bit<B: Builder>(b: &mut B, x: &[Lit23], n: u128) -> Result<Lit23, GateStop>
    requires { AllKnown (B.meaning b.old) x.now }
    ensures built { let m = B.meaning b.old in Builds B.noted Stands m (B.meaning b.new) result (plain (bit_at (edges m x.now) n)) }
    ensures value { IfOk result (λ l. (bits : ℕ → ℕ → Bool) → value_of bits (edge (B.meaning b.new) l) ≡ is.bit (word bits (edges (B.meaning b.old) x.now)) n) }
    ensures succeeds { IsOk result }
    ensures unchanged { b.new ≡ b.old }
{
    if n < x.len() as u128 {
        Ok(x[n as usize])
    } else {
        Ok(Lit23::new(0, false))
    }
}

/// The top bit. Lean 4 `x.msb`. It makes no gate and is never refused.
pub fn msb<B: Builder>(b: &mut B, x: &[Lit23]) -> Result<Lit23, GateStop>
    requires positive { 1 ≤ length x.now }
    requires known { AllKnown (B.meaning b.old) x.now }
    ensures built { let m = B.meaning b.old in Builds B.noted Stands m (B.meaning b.new) result (plain (top_bit (edges m x.now))) }
    ensures value { IfOk result (λ l. (bits : ℕ → ℕ → Bool) → value_of bits (edge (B.meaning b.new) l) ≡ is.msb (word bits (edges (B.meaning b.old) x.now))) }
    ensures succeeds { IsOk result }
    ensures unchanged { b.new ≡ b.old }
{
    Ok(x[x.len() - 1])
}
