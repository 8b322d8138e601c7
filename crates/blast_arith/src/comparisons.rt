//! Comparisons: equality, and the unsigned and signed orders.

ghost use Rattle.std.specs.Prelude.{◌≡◌, ◌≤◌, ◌==◌, ℕ, Bool, length, IfOk, MatchResult};
ghost use Rattle.bv_value.specs.Operations as is;
ghost use Rattle.gate_shape.specs.Edge.{value as value_of};
ghost use Rattle.gate_shape.specs.Literal.{opposite};
ghost use Rattle.blast_logic.specs.Words.{written_number};
ghost use Rattle.gate_shape.specs.Builds.{AllKnown, edge, edges, Builds, Stands, IsMemory};
ghost use Rattle.blast_arith.specs.Comparisons.{equal, less, at_most, with_top, signed_less, signed_at_most};
ghost use Rattle.blast_logic.specs.Words.{word};

use crate::sums::add;
use gate_shape::{Builder, GateStop, Lit23, append, opposites, xor2};
use std::alloc::Global;

/// Whether two vectors are equal: a conjunction along the bits, from bit 0 up. Four gates a bit at
/// most. `Deep` and `Full` are those of a gate of the row.
pub fn eq<B: Builder>(b: &mut B, x: &[Lit23], y: &[Lit23]) -> Result<Lit23, GateStop>
    requires lengths { length x.now ≡ length y.now }
    requires left { AllKnown (B.meaning b.old) x.now }
    requires right { AllKnown (B.meaning b.old) y.now }
    ensures built { let m = B.meaning b.old in Builds B.noted Stands m (B.meaning b.new) result (equal (edges m x.now) (edges m y.now)) }
    ensures value { let m = B.meaning b.old in IfOk result (λ l. (bits : ℕ → ℕ → Bool) → value_of bits (edge (B.meaning b.new) l) ≡ (written_number bits (edges m x.now) == written_number bits (edges m y.now))) }
{
    let mut all = Lit23::new(0, true);
    for i in 0..x.len() {
        let differs = xor2(b, x[i], y[i])?;
        all = b.and(all, differs.not())?;
    }
    Ok(all)
}

/// Whether the first unsigned number is less: no carry comes out of the difference. Seven gates a
/// bit at most. `Deep` and `Full` are those of a gate of the row.
pub fn ult<B: Builder>(
    alloc: Global,
    b: &mut B,
    x: &[Lit23],
    y: &[Lit23],
) -> Result<Lit23, GateStop>
    requires lengths { length x.now ≡ length y.now }
    requires left { AllKnown (B.meaning b.old) x.now }
    requires right { AllKnown (B.meaning b.old) y.now }
    ensures built { let m = B.meaning b.old in Builds B.noted Stands m (B.meaning b.new) result (less (edges m x.now) (edges m y.now)) }
    ensures value { let m = B.meaning b.old in IfOk result (λ l. (bits : ℕ → ℕ → Bool) → value_of bits (edge (B.meaning b.new) l) ≡ is.ult (word bits (edges m x.now)) (word bits (edges m y.now))) }
{
    let negated = opposites(alloc, y)?;
    let (_sums, carry) = add(alloc, b, x, &negated, Lit23::new(0, true))?;
    Ok(carry.not())
}

/// Whether the first unsigned number is at most the second, which isn't less then. Seven gates a bit
/// at most. `Deep` and `Full` are those of a gate of the row.
pub fn ule<B: Builder>(
    alloc: Global,
    b: &mut B,
    x: &[Lit23],
    y: &[Lit23],
) -> Result<Lit23, GateStop>
    requires lengths { length x.now ≡ length y.now }
    requires left { AllKnown (B.meaning b.old) x.now }
    requires right { AllKnown (B.meaning b.old) y.now }
    ensures built { let m = B.meaning b.old in Builds B.noted Stands m (B.meaning b.new) result (at_most (edges m x.now) (edges m y.now)) }
    ensures value { let m = B.meaning b.old in IfOk result (λ l. (bits : ℕ → ℕ → Bool) → value_of bits (edge (B.meaning b.new) l) ≡ is.ule (word bits (edges m x.now)) (word bits (edges m y.now))) }
{
    let less = ult(alloc, b, y, x)?;
    Ok(less.not())
}

/// The literals, the last with its other sign.
fn with_sign_turned(alloc: Global, x: &[Lit23]) -> Result<Vec<Lit23>, GateStop>
    requires { 1 ≤ length x.now }
    ensures { MatchResult result (λ v. v.items ≡ with_top opposite x.now) IsMemory }
{
    let top = x.len() - 1;
    let mut out = Vec::new(alloc);
    for i in 0..top {
        append(&mut out, x[i])?;
    }
    append(&mut out, x[top].not())?;
    Ok(out)
}

/// Whether the first signed number is less: the unsigned order of the two with their top bits
/// negated. Seven gates a bit at most. `Deep` and `Full` are those of a gate of the row.
pub fn slt<B: Builder>(
    alloc: Global,
    b: &mut B,
    x: &[Lit23],
    y: &[Lit23],
) -> Result<Lit23, GateStop>
    requires positive { 1 ≤ length x.now }
    requires lengths { length x.now ≡ length y.now }
    requires left { AllKnown (B.meaning b.old) x.now }
    requires right { AllKnown (B.meaning b.old) y.now }
    ensures built { let m = B.meaning b.old in Builds B.noted Stands m (B.meaning b.new) result (signed_less (edges m x.now) (edges m y.now)) }
    ensures value { let m = B.meaning b.old in IfOk result (λ l. (bits : ℕ → ℕ → Bool) → value_of bits (edge (B.meaning b.new) l) ≡ is.slt (word bits (edges m x.now)) (word bits (edges m y.now))) }
{
    let left = with_sign_turned(alloc, x)?;
    let right = with_sign_turned(alloc, y)?;
    ult(alloc, b, &left, &right)
}

/// Whether the first signed number is at most the second, which isn't less then. Seven gates a bit
/// at most. `Deep` and `Full` are those of a gate of the row.
pub fn sle<B: Builder>(
    alloc: Global,
    b: &mut B,
    x: &[Lit23],
    y: &[Lit23],
) -> Result<Lit23, GateStop>
    requires positive { 1 ≤ length x.now }
    requires lengths { length x.now ≡ length y.now }
    requires left { AllKnown (B.meaning b.old) x.now }
    requires right { AllKnown (B.meaning b.old) y.now }
    ensures built { let m = B.meaning b.old in Builds B.noted Stands m (B.meaning b.new) result (signed_at_most (edges m x.now) (edges m y.now)) }
    ensures value { let m = B.meaning b.old in IfOk result (λ l. (bits : ℕ → ℕ → Bool) → value_of bits (edge (B.meaning b.new) l) ≡ is.sle (word bits (edges m x.now)) (word bits (edges m y.now))) }
{
    let less = slt(alloc, b, y, x)?;
    Ok(less.not())
}
