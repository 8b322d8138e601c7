//! Lists of literals that make no gate: one list behind another, and copies of a literal around a list. Each is refused
//! only for want of memory, and takes time by the length of what it answers.

ghost use Rattle.std.specs.Prelude.{◌≡◌, ◌-◌, ◌++◌, length, replicate, take, MatchResult};
ghost use Rattle.gate_shape.specs.Builds.{IsMemory};

use gate_shape::{GateStop, Lit23};
use std::alloc::Global;

/// The list itself, in memory of its own.
pub fn copied(alloc: Global, x: &[Lit23]) -> Result<Vec<Lit23>, GateStop>
    ensures { MatchResult result (λ v. v.items ≡ x.now) IsMemory }
{
    let mut out = Vec::new(alloc);
    out.extend_from_slice(x)?;
    Ok(out)
}

/// So many copies of a literal.
pub fn copies(alloc: Global, lit: Lit23, count: usize) -> Result<Vec<Lit23>, GateStop>
    ensures { MatchResult result (λ v. v.items ≡ replicate count lit) IsMemory }
{
    let mut out = Vec::new(alloc);
    out.resize(count, lit)?;
    Ok(out)
}

/// The first list, and the second behind it.
pub fn joined(alloc: Global, low: &[Lit23], high: &[Lit23]) -> Result<Vec<Lit23>, GateStop>
    ensures { MatchResult result (λ v. v.items ≡ low.now ++ high.now) IsMemory }
{
    let mut out = Vec::new(alloc);
    out.extend_from_slice(low)?;
    out.extend_from_slice(high)?;
    Ok(out)
}

/// So many copies of a literal, and the list behind them.
pub fn behind_copies(
    alloc: Global,
    fill: Lit23,
    count: usize,
    x: &[Lit23],
) -> Result<Vec<Lit23>, GateStop>
    ensures { MatchResult result (λ v. v.items ≡ replicate count fill ++ x.now) IsMemory }
{
    let mut out = Vec::new(alloc);
    out.resize(count, fill)?;
    out.extend_from_slice(x)?;
    Ok(out)
}

/// The first literals of the list, so many, and copies of a literal where the list has fewer.
pub fn resized(
    alloc: Global,
    x: &[Lit23],
    fill: Lit23,
    width: usize,
) -> Result<Vec<Lit23>, GateStop>
    ensures { MatchResult result (λ v. v.items ≡ take width x.now ++ replicate (width - length x.now) fill) IsMemory }
{
    let mut out = Vec::new(alloc);
    out.extend_from_slice(&x[..x.len().min(width)])?;
    out.resize(width, fill)?;
    Ok(out)
}
