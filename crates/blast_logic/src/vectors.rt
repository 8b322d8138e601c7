//! Vectors bit by bit: constants, variables and the bitwise operators.

ghost use Rattle.std.specs.Prelude.{◌≡◌, ◌≤◌, ◌<◌, ◌+◌, ◌*◌, ℕ, Bool, false, length, map, IfOk, MatchResult};
ghost use Rattle.std.specs.List.{range_with_len};
ghost use Rattle.gate_shape.specs.Edge.{invert};
ghost use Rattle.gate_shape.specs.Row.{plain, both, either, differ};
ghost use Rattle.gate_shape.specs.Builds.{Known, AllKnown, edge, edges, Builds, Stands, StandAll, IsMemory};
ghost use Rattle.bv_value.specs.Bits.{bits_of, number_of};
ghost use Rattle.bv_value.specs.Operations as is;
ghost use Rattle.blast_logic.specs.Words.{word};
ghost use Rattle.blast_logic.specs.Vectors.{constants, inputs, pairwise as pairwise_row};
ghost use Rattle.blast_logic.specs.Connectives.{connective};

use bv_value::Bv;
use gate_shape::{Builder, GateStop, Lit23, append, input, opposites, or2, xor2};
use std::alloc::Global;

// A bitwise operator on two vectors.
#[derive(Clone, Copy)]
enum Connective {
    And,
    Or,
    Xor,
}

// The lowest bits of a number as literals, bit 0 first.
fn literals(alloc: Global, width: u8, number: u128) -> Result<Vec<Lit23>, GateStop>
    ensures { MatchResult result (λ v. v.items ≡ map (λ b. record { node = 0; sign = b }) (bits_of width number)) IsMemory }
{
    let mut out = Vec::new(alloc);
    let mut rest = number;
    for j in 0..width {
        append(&mut out, Lit23::new(0, rest % 2 == 1))?;
        rest /= 2;
    }
    Ok(out)
}

// The input bits of a variable, bit 0 first.
fn input_literals(alloc: Global, k: u8, width: u8) -> Result<Vec<Lit23>, GateStop>
    requires variable { k < 64 }
    requires at_most_128 { width ≤ 128 }
    ensures { MatchResult result (λ v. v.items ≡ map (λ j. record { node = 1 + 128 * k + j; sign = false }) (range_with_len 0 width)) IsMemory }
{
    let mut out = Vec::new(alloc);
    for j in 0..width {
        append(&mut out, input(k, j))?;
    }
    Ok(out)
}

/// The bits of a constant. It makes no gate, and is refused only for want of memory. Takes time by the width.
pub fn constant<B: Builder>(alloc: Global, b: &mut B, value: &Bv) -> Result<Vec<Lit23>, GateStop>
    ensures built { Builds B.noted (λ m r. StandAll m r.items) (B.meaning b.old) (B.meaning b.new) result (plain (constants value.now)) }
    ensures value { IfOk result (λ v. (bits : ℕ → ℕ → Bool) → word bits (edges (B.meaning b.new) v.items) ≡ value.now) }
    ensures unchanged { b.new ≡ b.old }
{
    literals(alloc, value.width(), value.number())
}

/// The bits of variable k. It makes no gate, and is refused only for want of memory. Takes time by the width.
pub fn variable<B: Builder>(
    alloc: Global,
    b: &mut B,
    k: u8,
    width: u8,
) -> Result<Vec<Lit23>, GateStop>
    requires variable { k < 64 }
    requires positive { 1 ≤ width }
    requires at_most_128 { width ≤ 128 }
    ensures built { Builds B.noted (λ m r. StandAll m r.items) (B.meaning b.old) (B.meaning b.new) result (plain (inputs k width)) }
    ensures value { IfOk result (λ v. (bits : ℕ → ℕ → Bool) → word bits (edges (B.meaning b.new) v.items) ≡ record { width = width; number = number_of (map (bits k) (range_with_len 0 width)) }) }
    ensures unchanged { b.new ≡ b.old }
{
    input_literals(alloc, k, width)
}

/// Each bit turned over. Lean 4 `~~~x`. It makes no gate, and is refused only for want of memory. Takes time by the
/// width.
pub fn not<B: Builder>(alloc: Global, b: &mut B, x: &[Lit23]) -> Result<Vec<Lit23>, GateStop>
    requires { AllKnown (B.meaning b.old) x.now }
    ensures built { let m = B.meaning b.old in Builds B.noted (λ m r. StandAll m r.items) m (B.meaning b.new) result (plain (map invert (edges m x.now))) }
    ensures value { let m = B.meaning b.old in IfOk result (λ v. (bits : ℕ → ℕ → Bool) → word bits (edges (B.meaning b.new) v.items) ≡ is.bitwise_not (word bits (edges m x.now))) }
    ensures unchanged { b.new ≡ b.old }
{
    opposites(alloc, x)
}

// The row of an operator on two bits.
fn connected<B: Builder>(b: &mut B, how: Connective, x: Lit23, y: Lit23) -> Result<Lit23, GateStop>
    requires left { Known (B.meaning b.old) x }
    requires right { Known (B.meaning b.old) y }
    ensures { let m = B.meaning b.old in Builds B.noted Stands m (B.meaning b.new) result (connective how (edge m x) (edge m y)) }
{
    match how {
        Connective::And => b.and(x, y),
        Connective::Or => or2(b, x, y),
        Connective::Xor => xor2(b, x, y),
    }
}

// The row of an operator at each place, from bit 0 up.
fn pairwise<B: Builder>(
    alloc: Global,
    b: &mut B,
    how: Connective,
    x: &[Lit23],
    y: &[Lit23],
) -> Result<Vec<Lit23>, GateStop>
    requires lengths { length x.now ≡ length y.now }
    requires left { AllKnown (B.meaning b.old) x.now }
    requires right { AllKnown (B.meaning b.old) y.now }
    ensures { let m = B.meaning b.old in Builds B.noted (λ m r. StandAll m r.items) m (B.meaning b.new) result (pairwise_row (connective how) (edges m x.now) (edges m y.now)) }
{
    let mut out = Vec::new(alloc);
    for i in 0..x.len() {
        let bit = connected(b, how, x[i], y[i])?;
        append(&mut out, bit)?;
    }
    Ok(out)
}

/// Both bits, at each place. Lean 4 `x &&& y`. One gate a bit at most. `Deep` and `Full` are those of a gate of the row.
pub fn and<B: Builder>(
    alloc: Global,
    b: &mut B,
    x: &[Lit23],
    y: &[Lit23],
) -> Result<Vec<Lit23>, GateStop>
    requires lengths { length x.now ≡ length y.now }
    requires left { AllKnown (B.meaning b.old) x.now }
    requires right { AllKnown (B.meaning b.old) y.now }
    ensures built { let m = B.meaning b.old in Builds B.noted (λ m r. StandAll m r.items) m (B.meaning b.new) result (pairwise_row both (edges m x.now) (edges m y.now)) }
    ensures value { let m = B.meaning b.old in IfOk result (λ v. (bits : ℕ → ℕ → Bool) → word bits (edges (B.meaning b.new) v.items) ≡ is.bitwise_and (word bits (edges m x.now)) (word bits (edges m y.now))) }
{
    pairwise(alloc, b, Connective::And, x, y)
}

/// One or both bits, at each place. Lean 4 `x ||| y`. One gate a bit at most. `Deep` and `Full` are those of a gate of
/// the row.
pub fn or<B: Builder>(
    alloc: Global,
    b: &mut B,
    x: &[Lit23],
    y: &[Lit23],
) -> Result<Vec<Lit23>, GateStop>
    requires lengths { length x.now ≡ length y.now }
    requires left { AllKnown (B.meaning b.old) x.now }
    requires right { AllKnown (B.meaning b.old) y.now }
    ensures built { let m = B.meaning b.old in Builds B.noted (λ m r. StandAll m r.items) m (B.meaning b.new) result (pairwise_row either (edges m x.now) (edges m y.now)) }
    ensures value { let m = B.meaning b.old in IfOk result (λ v. (bits : ℕ → ℕ → Bool) → word bits (edges (B.meaning b.new) v.items) ≡ is.bitwise_or (word bits (edges m x.now)) (word bits (edges m y.now))) }
{
    pairwise(alloc, b, Connective::Or, x, y)
}

/// Exactly one of the bits, at each place. Lean 4 `x ^^^ y`. Three gates a bit at most. `Deep` and `Full` are those of a
/// gate of the row.
pub fn xor<B: Builder>(
    alloc: Global,
    b: &mut B,
    x: &[Lit23],
    y: &[Lit23],
) -> Result<Vec<Lit23>, GateStop>
    requires lengths { length x.now ≡ length y.now }
    requires left { AllKnown (B.meaning b.old) x.now }
    requires right { AllKnown (B.meaning b.old) y.now }
    ensures built { let m = B.meaning b.old in Builds B.noted (λ m r. StandAll m r.items) m (B.meaning b.new) result (pairwise_row differ (edges m x.now) (edges m y.now)) }
    ensures value { let m = B.meaning b.old in IfOk result (λ v. (bits : ℕ → ℕ → Bool) → word bits (edges (B.meaning b.new) v.items) ≡ is.bitwise_xor (word bits (edges m x.now)) (word bits (edges m y.now))) }
{
    pairwise(alloc, b, Connective::Xor, x, y)
}
