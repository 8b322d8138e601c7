//! Lists of literals that make no gate, as the rows of words need them.

ghost use Rattle.std.specs.Prelude.{◌≡◌, ◌++◌, ◌∷◌, [], map, replicate, MatchResult};
ghost use Rattle.gate_shape.specs.Literal.{opposite};
ghost use Rattle.gate_shape.specs.Word.{false_literal};
ghost use Rattle.gate_shape.specs.Builds.{IsMemory};

use crate::builder::GateStop;
use crate::lit::Lit23;
use std::alloc::{AllocError, Global};

/// Appends a literal to a list, or wants memory, which leaves the list as it was. O(1) over many calls.
pub fn append(list: &mut Vec<Lit23>, lit: Lit23) -> Result<(), GateStop>
    ensures { MatchResult result (λ _. list.new.items ≡ list.old.items ++ lit ∷ []) (λ stop. IsMemory stop × (list.new.items ≡ list.old.items)) }
{
    match list.push(lit) {
        Ok(()) => Ok(()),
        Err(refused) => Err(GateStop::Memory(AllocError::from(refused))),
    }
}

/// The literals with their other signs.
pub fn opposites(alloc: Global, x: &[Lit23]) -> Result<Vec<Lit23>, GateStop>
    ensures { MatchResult result (λ v. v.items ≡ map opposite x.now) IsMemory }
{
    let mut out = Vec::new(alloc);
    for lit in x {
        append(&mut out, lit.not())?;
    }
    Ok(out)
}

/// So many literals that are false.
pub fn falses(alloc: Global, count: usize) -> Result<Vec<Lit23>, GateStop>
    ensures { MatchResult result (λ v. v.items ≡ replicate count false_literal) IsMemory }
{
    let mut out = Vec::new(alloc);
    for i in 0..count {
        append(&mut out, Lit23::new(0, false))?;
    }
    Ok(out)
}
