//! Signed division: unsigned division of the magnitudes, and the signs.

ghost use Rattle.std.specs.Prelude.{◌≡◌, ◌≤◌, ℕ, Bool, length, IfOk};
ghost use Rattle.bv_value.specs.Operations as is;
ghost use Rattle.gate_shape.specs.Builds.{Known, AllKnown, StandAll, edge, edges, Builds};
ghost use Rattle.blast_logic.specs.Words.{word};
ghost use Rattle.blast_div.specs.Signed.{negated_where as row_negated, magnitude as row_of_magnitude, magnitude_remainder as row_of_remainder, signed_quotient, signed_remainder, signed_modulus};

use crate::unsigned::{is_zero, udiv, umod};
use blast_arith::{add, neg};
use blast_logic::choose;
use gate_shape::{Builder, GateStop, Lit23, xor2};
use std::alloc::Global;

/// The negated number where the literal is true, else the number.
fn negated_where<B: Builder>(
    alloc: Global,
    b: &mut B,
    c: Lit23,
    x: &[Lit23],
) -> Result<Vec<Lit23>, GateStop>
    requires condition { Known (B.meaning b.old) c }
    requires known { AllKnown (B.meaning b.old) x.now }
    ensures built { let m = B.meaning b.old in Builds B.noted (λ m r. StandAll m r.items) m (B.meaning b.new) result (row_negated (edge m c) (edges m x.now)) }
    ensures lengths { IfOk result (λ v. length v.items ≡ length x.now) }
{
    let negated = neg(alloc, b, x)?;
    choose(alloc, b, c, &negated, x)
}

/// The magnitude of a signed number.
fn magnitude<B: Builder>(alloc: Global, b: &mut B, x: &[Lit23]) -> Result<Vec<Lit23>, GateStop>
    requires positive { 1 ≤ length x.now }
    requires known { AllKnown (B.meaning b.old) x.now }
    ensures built { let m = B.meaning b.old in Builds B.noted (λ m r. StandAll m r.items) m (B.meaning b.new) result (row_of_magnitude (edges m x.now)) }
    ensures lengths { IfOk result (λ v. length v.items ≡ length x.now) }
{
    negated_where(alloc, b, x[x.len() - 1], x)
}

/// The signed quotient rounded toward 0, or 0 where the divisor is 0: the magnitudes, their quotient,
/// whether the signs differ, the negated quotient, and then a choice for each bit. At width w at most
/// 10 * w * (w + 5) + 3 gates. `Deep` and `Full` are those of a gate of the row.
pub fn sdiv<B: Builder>(
    alloc: Global,
    b: &mut B,
    x: &[Lit23],
    y: &[Lit23],
) -> Result<Vec<Lit23>, GateStop>
    requires positive { 1 ≤ length x.now }
    requires lengths { length x.now ≡ length y.now }
    requires left { AllKnown (B.meaning b.old) x.now }
    requires right { AllKnown (B.meaning b.old) y.now }
    ensures built { let m = B.meaning b.old in Builds B.noted (λ m r. StandAll m r.items) m (B.meaning b.new) result (signed_quotient (edges m x.now) (edges m y.now)) }
    ensures value { let m = B.meaning b.old in IfOk result (λ v. (bits : ℕ → ℕ → Bool) → word bits (edges (B.meaning b.new) v.items) ≡ is.sdiv (word bits (edges m x.now)) (word bits (edges m y.now))) }
{
    let left = magnitude(alloc, b, x)?;
    let right = magnitude(alloc, b, y)?;
    let quotient = udiv(alloc, b, &left, &right)?;
    let top = x.len() - 1;
    let differ = xor2(b, x[top], y[top])?;
    negated_where(alloc, b, differ, &quotient)
}

/// The remainder of the magnitudes of two signed numbers.
fn magnitude_remainder<B: Builder>(
    alloc: Global,
    b: &mut B,
    x: &[Lit23],
    y: &[Lit23],
) -> Result<Vec<Lit23>, GateStop>
    requires positive { 1 ≤ length x.now }
    requires lengths { length x.now ≡ length y.now }
    requires left { AllKnown (B.meaning b.old) x.now }
    requires right { AllKnown (B.meaning b.old) y.now }
    ensures built { let m = B.meaning b.old in Builds B.noted (λ m r. StandAll m r.items) m (B.meaning b.new) result (row_of_remainder (edges m x.now) (edges m y.now)) }
    ensures lengths { IfOk result (λ v. length v.items ≡ length x.now) }
{
    let left = magnitude(alloc, b, x)?;
    let right = magnitude(alloc, b, y)?;
    umod(alloc, b, &left, &right)
}

/// The signed remainder with the sign of the first number, which is the answer where the divisor is
/// 0: the magnitudes, their remainder, the negated remainder, and then a choice for each bit. At
/// width w at most 10 * w * (w + 5) gates. `Deep` and `Full` are those of a gate of the row.
pub fn srem<B: Builder>(
    alloc: Global,
    b: &mut B,
    x: &[Lit23],
    y: &[Lit23],
) -> Result<Vec<Lit23>, GateStop>
    requires positive { 1 ≤ length x.now }
    requires lengths { length x.now ≡ length y.now }
    requires left { AllKnown (B.meaning b.old) x.now }
    requires right { AllKnown (B.meaning b.old) y.now }
    ensures built { let m = B.meaning b.old in Builds B.noted (λ m r. StandAll m r.items) m (B.meaning b.new) result (signed_remainder (edges m x.now) (edges m y.now)) }
    ensures value { let m = B.meaning b.old in IfOk result (λ v. (bits : ℕ → ℕ → Bool) → word bits (edges (B.meaning b.new) v.items) ≡ is.srem (word bits (edges m x.now)) (word bits (edges m y.now))) }
{
    let rest = magnitude_remainder(alloc, b, x, y)?;
    negated_where(alloc, b, x[x.len() - 1], &rest)
}

/// The signed remainder with the sign of the second number, or the first number where the divisor is
/// 0: the remainder as of `srem`, whether that of the magnitudes is 0, whether the signs differ and it
/// isn't, the sum with the divisor, and then a choice for each bit. At width w at most
/// 10 * w * (w + 7) + 4 gates. `Deep` and `Full` are those of a gate of the row.
pub fn smod<B: Builder>(
    alloc: Global,
    b: &mut B,
    x: &[Lit23],
    y: &[Lit23],
) -> Result<Vec<Lit23>, GateStop>
    requires positive { 1 ≤ length x.now }
    requires lengths { length x.now ≡ length y.now }
    requires left { AllKnown (B.meaning b.old) x.now }
    requires right { AllKnown (B.meaning b.old) y.now }
    ensures built { let m = B.meaning b.old in Builds B.noted (λ m r. StandAll m r.items) m (B.meaning b.new) result (signed_modulus (edges m x.now) (edges m y.now)) }
    ensures value { let m = B.meaning b.old in IfOk result (λ v. (bits : ℕ → ℕ → Bool) → word bits (edges (B.meaning b.new) v.items) ≡ is.smod (word bits (edges m x.now)) (word bits (edges m y.now))) }
{
    let rest = magnitude_remainder(alloc, b, x, y)?;
    let top = x.len() - 1;
    let signed = negated_where(alloc, b, x[top], &rest)?;
    let zero = is_zero(b, &rest)?;
    let differ = xor2(b, x[top], y[top])?;
    let turned = b.and(differ, zero.not())?;
    let (sums, _carry) = add(alloc, b, &signed, y, Lit23::new(0, false))?;
    choose(alloc, b, turned, &sums, &signed)
}
