//! Circuits of products of bit vectors, over any builder.
//!
//! A vector is a slice of literals, bit 0 first. The clause `built` says which gates are written, in
//! order, and which edges the answer stands for; the clause `value` says what they mean for all values
//! of the inputs, by the operator of `bv_value`.
#![tactic(auto)]

ghost use Rattle.std.specs.Prelude.{◌≡◌, ◌≤◌, ℕ, Bool, length, IfOk};
ghost use Rattle.bv_value.specs.Operations as is;
ghost use Rattle.gate_shape.specs.Builds.{Known, AllKnown, edge, edges, Builds, StandAll};
ghost use Rattle.blast_logic.specs.Words.{word};
ghost use Rattle.blast_mul.specs.Product.{partial_product as row_of_part, add_partial as row_of_sum, product};

use blast_arith::add;
use gate_shape::{Builder, GateStop, Lit23, append, falses};
use std::alloc::Global;

#[cfg(test)]
mod tests;

/// The bits of `x` moved up by `place` within their width, each with this bit.
fn partial_product<B: Builder>(
    alloc: Global,
    b: &mut B,
    x: &[Lit23],
    place: usize,
    bit: Lit23,
) -> Result<Vec<Lit23>, GateStop>
    requires within { place ≤ length x.now }
    requires known { AllKnown (B.meaning b.old) x.now }
    requires bit { Known (B.meaning b.old) bit }
    ensures { let m = B.meaning b.old in Builds B.noted (λ m r. StandAll m r.items) m (B.meaning b.new) result (row_of_part (edges m x.now) (place, edge m bit)) }
{
    let mut row = falses(alloc, place)?;
    for j in 0..x.len() - place {
        let masked = b.and(bit, x[j])?;
        append(&mut row, masked)?;
    }
    Ok(row)
}

/// The sum so far, and one more partial product.
fn add_partial<B: Builder>(
    alloc: Global,
    b: &mut B,
    x: &[Lit23],
    sum: &[Lit23],
    place: usize,
    bit: Lit23,
) -> Result<Vec<Lit23>, GateStop>
    requires lengths { length sum.now ≡ length x.now }
    requires within { place ≤ length x.now }
    requires known { AllKnown (B.meaning b.old) x.now }
    requires sum { AllKnown (B.meaning b.old) sum.now }
    requires bit { Known (B.meaning b.old) bit }
    ensures built { let m = B.meaning b.old in Builds B.noted (λ m r. StandAll m r.items) m (B.meaning b.new) result (row_of_sum (edges m x.now) (edges m sum.now) (place, edge m bit)) }
    ensures lengths { IfOk result (λ v. length v.items ≡ length x.now) }
{
    let row = partial_product(alloc, b, x, place, bit)?;
    let (sums, _carry) = add(alloc, b, sum, &row, Lit23::new(0, false))?;
    Ok(sums)
}

/// The product, modulo two to the width: from zeros on, for each bit i of the second vector from
/// bit 0 up, the sum so far and the first vector moved up by i, each of its bits with that bit. At
/// width w at most 8 * w * w gates. `Deep` and `Full` are those of a gate of the row.
pub fn mul<B: Builder>(
    alloc: Global,
    b: &mut B,
    x: &[Lit23],
    y: &[Lit23],
) -> Result<Vec<Lit23>, GateStop>
    requires lengths { length x.now ≡ length y.now }
    requires left { AllKnown (B.meaning b.old) x.now }
    requires right { AllKnown (B.meaning b.old) y.now }
    ensures built { let m = B.meaning b.old in Builds B.noted (λ m r. StandAll m r.items) m (B.meaning b.new) result (product (edges m x.now) (edges m y.now)) }
    ensures value { let m = B.meaning b.old in IfOk result (λ v. (bits : ℕ → ℕ → Bool) → word bits (edges (B.meaning b.new) v.items) ≡ is.mul (word bits (edges m x.now)) (word bits (edges m y.now))) }
{
    let mut sum = falses(alloc, x.len())?;
    for i in 0..y.len() {
        sum = add_partial(alloc, b, x, &sum, i, y[i])?;
    }
    Ok(sum)
}
