//! Sums: the ripple adder, differences and negated numbers.

ghost use Rattle.std.specs.Prelude.{◌≡◌, ◌+◌, ◌*◌, ◌^◌, ℕ, Bool, false, length, IfOk};
ghost use Rattle.bv_value.specs.Operations as is;
ghost use Rattle.gate_shape.specs.Edge.{value as value_of};
ghost use Rattle.bv_value.specs.Bits.{bit_number};
ghost use Rattle.blast_logic.specs.Words.{written_number};
ghost use Rattle.gate_shape.specs.Builds.{Known, AllKnown, edge, edges, Builds, StandAll, StandAllAndOne};
ghost use Rattle.blast_arith.specs.Sums.{adder, difference, negative};
ghost use Rattle.blast_logic.specs.Words.{word};

use gate_shape::{Builder, GateStop, Lit23, append, falses, full_adder, opposites};
use std::alloc::Global;

/// The sums, bit 0 first, and the last carry: full adders from bit 0, each carry going to the next.
/// The sum of two vectors is this with a carry that is false. Seven gates a bit at most. `Deep` and
/// `Full` are those of a gate of the row.
pub fn add<B: Builder>(
    alloc: Global,
    b: &mut B,
    x: &[Lit23],
    y: &[Lit23],
    carry: Lit23,
) -> Result<(Vec<Lit23>, Lit23), GateStop>
    requires lengths { length x.now ≡ length y.now }
    requires left { AllKnown (B.meaning b.old) x.now }
    requires right { AllKnown (B.meaning b.old) y.now }
    requires carry { Known (B.meaning b.old) carry }
    ensures built { let m = B.meaning b.old in Builds B.noted (λ m r. StandAllAndOne m (r.0.items, r.1)) m (B.meaning b.new) result (adder (edges m x.now) (edges m y.now) (edge m carry)) }
    ensures value { let m = B.meaning b.old in IfOk result (λ r. (bits : ℕ → ℕ → Bool) → written_number bits (edges (B.meaning b.new) r.0.items) + 2 ^ length x.now * bit_number (value_of bits (edge (B.meaning b.new) r.1)) ≡ written_number bits (edges m x.now) + written_number bits (edges m y.now) + bit_number (value_of bits (edge m carry))) }
    // With no carry in, the sums are the sum of the two vectors.
    ensures sum { let m = B.meaning b.old in IfOk result (λ r. (bits : ℕ → ℕ → Bool) → value_of bits (edge m carry) ≡ false → word bits (edges (B.meaning b.new) r.0.items) ≡ is.add (word bits (edges m x.now)) (word bits (edges m y.now))) }
    ensures lengths { IfOk result (λ r. length r.0.items ≡ length x.now) }
{
    let mut sums = Vec::new(alloc);
    let mut next = carry;
    for i in 0..x.len() {
        let (sum, more) = full_adder(b, x[i], y[i], next)?;
        append(&mut sums, sum)?;
        next = more;
    }
    Ok((sums, next))
}

/// The difference: the sums of the first vector and the negated bits of the second, with the carry
/// true. Seven gates a bit at most. `Deep` and `Full` are those of a gate of the row.
pub fn sub<B: Builder>(
    alloc: Global,
    b: &mut B,
    x: &[Lit23],
    y: &[Lit23],
) -> Result<Vec<Lit23>, GateStop>
    requires lengths { length x.now ≡ length y.now }
    requires left { AllKnown (B.meaning b.old) x.now }
    requires right { AllKnown (B.meaning b.old) y.now }
    ensures built { let m = B.meaning b.old in Builds B.noted (λ m r. StandAll m r.items) m (B.meaning b.new) result (difference (edges m x.now) (edges m y.now)) }
    ensures value { let m = B.meaning b.old in IfOk result (λ v. (bits : ℕ → ℕ → Bool) → word bits (edges (B.meaning b.new) v.items) ≡ is.sub (word bits (edges m x.now)) (word bits (edges m y.now))) }
{
    let negated = opposites(alloc, y)?;
    let (sums, _carry) = add(alloc, b, x, &negated, Lit23::new(0, true))?;
    Ok(sums)
}

/// The negated number, modulo two to the width: the sums of the negated bits and zeros, with the
/// carry true. Seven gates a bit at most. `Deep` and `Full` are those of a gate of the row.
pub fn neg<B: Builder>(alloc: Global, b: &mut B, x: &[Lit23]) -> Result<Vec<Lit23>, GateStop>
    requires { AllKnown (B.meaning b.old) x.now }
    ensures built { let m = B.meaning b.old in Builds B.noted (λ m r. StandAll m r.items) m (B.meaning b.new) result (negative (edges m x.now)) }
    ensures value { IfOk result (λ v. (bits : ℕ → ℕ → Bool) → word bits (edges (B.meaning b.new) v.items) ≡ is.neg (word bits (edges (B.meaning b.old) x.now))) }
{
    let negated = opposites(alloc, x)?;
    let zeros = falses(alloc, x.len())?;
    let (sums, _carry) = add(alloc, b, &negated, &zeros, Lit23::new(0, true))?;
    Ok(sums)
}
