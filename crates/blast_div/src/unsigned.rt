//! Unsigned division, bit by bit from the top of the dividend down.

ghost use Rattle.std.specs.Prelude.{◌≡◌, ◌<◌, ◌+◌, ◌∷◌, ◌++◌, [], ℕ, Bool, length, map, IfOk, MatchResult};
ghost use Rattle.bv_value.specs.Operations as is;
ghost use Rattle.blast_logic.specs.Words.{written_number};
ghost use Rattle.gate_shape.specs.Literal.{opposite};
ghost use Rattle.gate_shape.specs.Word.{true_literal};
ghost use Rattle.gate_shape.specs.Builds.{Known, AllKnown, Stands, StandAll, edge, edges, Builds, IsMemory};
ghost use Rattle.blast_logic.specs.Words.{word};
ghost use Rattle.blast_div.specs.Division.{divide_step as row_of_step, division, zero_test, remainder, quotient, StandAllTwo, StandOneAndAll};

use blast_arith::add;
use blast_logic::{choose, joined, masked};
use gate_shape::{Builder, GateStop, Lit23, append, falses, opposites};
use std::alloc::Global;

/// One more bit of a quotient, and the new remainder. `negated` is the divisor with a false bit on
/// top, negated.
fn divide_step<B: Builder>(
    alloc: Global,
    b: &mut B,
    negated: &[Lit23],
    rest: &[Lit23],
    bit: Lit23,
) -> Result<(Lit23, Vec<Lit23>), GateStop>
    requires lengths { length negated.now ≡ length rest.now + 1 }
    requires divisor { AllKnown (B.meaning b.old) negated.now }
    requires rest { AllKnown (B.meaning b.old) rest.now }
    requires bit { Known (B.meaning b.old) bit }
    ensures built { let m = B.meaning b.old in Builds B.noted (λ m r. StandOneAndAll m (r.0, r.1.items)) m (B.meaning b.new) result (row_of_step (edges m negated.now) (edges m rest.now) (edge m bit)) }
    ensures lengths { IfOk result (λ r. length r.1.items ≡ length rest.now) }
{
    let width = rest.len();
    let grown = joined(alloc, &[bit], rest)?;
    let (sums, fits) = add(alloc, b, &grown, negated, Lit23::new(0, true))?;
    let left = choose(alloc, b, fits, &sums[..width], &grown[..width])?;
    Ok((fits, left))
}

/// The divisor with a false bit on top, negated.
fn negated_divisor(alloc: Global, y: &[Lit23]) -> Result<Vec<Lit23>, GateStop>
    ensures { MatchResult result (λ v. v.items ≡ map opposite y.now ++ true_literal ∷ []) IsMemory }
{
    let mut negated = opposites(alloc, y)?;
    append(&mut negated, Lit23::new(0, true))?;
    Ok(negated)
}

/// The quotient and the remainder, where the divisor isn't 0. From the top bit of the dividend down,
/// the bit goes below the remainder so far, and the divisor is taken off where it is no greater; the
/// bit of the quotient is whether it was. At width w at most 10 * w * (w + 1) gates. `Deep` and
/// `Full` are those of a gate of the row.
pub fn divide<B: Builder>(
    alloc: Global,
    b: &mut B,
    x: &[Lit23],
    y: &[Lit23],
) -> Result<(Vec<Lit23>, Vec<Lit23>), GateStop>
    requires lengths { length x.now ≡ length y.now }
    requires left { AllKnown (B.meaning b.old) x.now }
    requires right { AllKnown (B.meaning b.old) y.now }
    ensures built { let m = B.meaning b.old in Builds B.noted (λ m r. StandAllTwo m (r.0.items, r.1.items)) m (B.meaning b.new) result (division (edges m x.now) (edges m y.now)) }
    ensures quotient { let m = B.meaning b.old in IfOk result (λ r. (bits : ℕ → ℕ → Bool) → 0 < written_number bits (edges m y.now) → word bits (edges (B.meaning b.new) r.0.items) ≡ is.udiv (word bits (edges m x.now)) (word bits (edges m y.now))) }
    ensures remainder { let m = B.meaning b.old in IfOk result (λ r. (bits : ℕ → ℕ → Bool) → 0 < written_number bits (edges m y.now) → word bits (edges (B.meaning b.new) r.1.items) ≡ is.umod (word bits (edges m x.now)) (word bits (edges m y.now))) }
    ensures lengths { IfOk result (λ r. (length r.0.items ≡ length x.now) × (length r.1.items ≡ length x.now)) }
{
    let width = x.len();
    let negated = negated_divisor(alloc, y)?;
    let mut rest = falses(alloc, width)?;
    let mut quotient = Vec::new(alloc);
    for i in 0..width {
        let (fits, left) = divide_step(alloc, b, &negated, &rest, x[width - 1 - i])?;
        append(&mut quotient, fits)?;
        rest = left;
    }
    quotient.reverse();
    Ok((quotient, rest))
}

/// Whether all bits are false.
pub(crate) fn is_zero<B: Builder>(b: &mut B, y: &[Lit23]) -> Result<Lit23, GateStop>
    requires { AllKnown (B.meaning b.old) y.now }
    ensures { let m = B.meaning b.old in Builds B.noted Stands m (B.meaning b.new) result (zero_test (edges m y.now)) }
{
    let mut zero = Lit23::new(0, true);
    for i in 0..y.len() {
        zero = b.and(zero, y[i].not())?;
    }
    Ok(zero)
}

/// The unsigned quotient rounded down, or 0 where the divisor is 0: the division, whether the divisor
/// is 0, and then each bit of the quotient. At width w at most 10 * w * (w + 2) gates. `Deep` and
/// `Full` are those of a gate of the row.
pub fn udiv<B: Builder>(
    alloc: Global,
    b: &mut B,
    x: &[Lit23],
    y: &[Lit23],
) -> Result<Vec<Lit23>, GateStop>
    requires lengths { length x.now ≡ length y.now }
    requires left { AllKnown (B.meaning b.old) x.now }
    requires right { AllKnown (B.meaning b.old) y.now }
    ensures built { let m = B.meaning b.old in Builds B.noted (λ m r. StandAll m r.items) m (B.meaning b.new) result (quotient (edges m x.now) (edges m y.now)) }
    ensures value { let m = B.meaning b.old in IfOk result (λ v. (bits : ℕ → ℕ → Bool) → word bits (edges (B.meaning b.new) v.items) ≡ is.udiv (word bits (edges m x.now)) (word bits (edges m y.now))) }
{
    let (bits, _rest) = divide(alloc, b, x, y)?;
    let zero = is_zero(b, y)?;
    masked(alloc, b, zero.not(), &bits)
}

/// The unsigned remainder, or the first vector where the divisor is 0: the division, whether the
/// divisor is 0, and then a choice for each bit. At width w at most 10 * w * (w + 2) gates. `Deep`
/// and `Full` are those of a gate of the row.
pub fn umod<B: Builder>(
    alloc: Global,
    b: &mut B,
    x: &[Lit23],
    y: &[Lit23],
) -> Result<Vec<Lit23>, GateStop>
    requires lengths { length x.now ≡ length y.now }
    requires left { AllKnown (B.meaning b.old) x.now }
    requires right { AllKnown (B.meaning b.old) y.now }
    ensures built { let m = B.meaning b.old in Builds B.noted (λ m r. StandAll m r.items) m (B.meaning b.new) result (remainder (edges m x.now) (edges m y.now)) }
    ensures value { let m = B.meaning b.old in IfOk result (λ v. (bits : ℕ → ℕ → Bool) → word bits (edges (B.meaning b.new) v.items) ≡ is.umod (word bits (edges m x.now)) (word bits (edges m y.now))) }
{
    let (_quotient, rest) = divide(alloc, b, x, y)?;
    let zero = is_zero(b, y)?;
    choose(alloc, b, zero, x, &rest)
}
