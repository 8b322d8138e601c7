//! Choices between two lists of bits, and lists with one bit.

ghost use Rattle.std.specs.Prelude.{◌≡◌, ℕ, Bool, length, IfOk, if◌then◌else◌};
ghost use Rattle.gate_shape.specs.Edge.{value};
ghost use Rattle.blast_logic.specs.Words.{word};
ghost use Rattle.gate_shape.specs.Builds.{Meaning, Known, AllKnown, edge, edges, Builds, StandAll};
ghost use Rattle.blast_logic.specs.Chosen.{chosen, masked as masked_row};

use gate_shape::{Builder, GateStop, Lit23, append, ite};
use std::alloc::Global;

/// The bits of the first list where the literal is true, else those of the second: a choice for each
/// bit, from bit 0 up. Three gates a bit at most. `Deep` and `Full` are those of a gate of the row.
pub fn choose<B: Builder>(
    alloc: Global,
    b: &mut B,
    c: Lit23,
    x: &[Lit23],
    y: &[Lit23],
) -> Result<Vec<Lit23>, GateStop>
    requires lengths { length x.now ≡ length y.now }
    requires condition { Known (B.meaning b.old) c }
    requires left { AllKnown (B.meaning b.old) x.now }
    requires right { AllKnown (B.meaning b.old) y.now }
    ensures built { let m = B.meaning b.old in Builds B.noted (λ m r. StandAll m r.items) m (B.meaning b.new) result (chosen (edge m c) (edges m x.now) (edges m y.now)) }
    ensures value { let m = B.meaning b.old in IfOk result (λ v. (bits : ℕ → ℕ → Bool) → word bits (edges (B.meaning b.new) v.items) ≡ (if value bits (edge m c) then word bits (edges m x.now) else word bits (edges m y.now))) }
{
    let mut out = Vec::new(alloc);
    for i in 0..x.len() {
        let chosen = ite(b, c, x[i], y[i])?;
        append(&mut out, chosen)?;
    }
    Ok(out)
}

/// The conjunction of each bit with one literal, from bit 0 up: the bits where the literal is true, else
/// zeros. One gate a bit at most. `Deep` and `Full` are those of a gate of the row.
pub fn masked<B: Builder>(
    alloc: Global,
    b: &mut B,
    mask: Lit23,
    x: &[Lit23],
) -> Result<Vec<Lit23>, GateStop>
    requires mask { Known (B.meaning b.old) mask }
    requires known { AllKnown (B.meaning b.old) x.now }
    ensures { let m = B.meaning b.old in Builds B.noted (λ m r. StandAll m r.items) m (B.meaning b.new) result (masked_row (edge m mask) (edges m x.now)) }
{
    let mut out = Vec::new(alloc);
    for i in 0..x.len() {
        let kept = b.and(mask, x[i])?;
        append(&mut out, kept)?;
    }
    Ok(out)
}
