//! Each circuit once with memory for each call, at constants of width 4, which make no gate.

ghost use Rattle.std.specs.Prelude.{◌≡◌, ◌≤◌, length};
ghost use Rattle.gate_shape.specs.Builds.{Meaning, AllKnown};

use crate::{divide, sdiv, smod, srem, udiv, umod};
use gate_shape::{GateStop, ListBuilder, Lit23};
use std::alloc::Global;
use std::test::Fail;

/// Whether these are the four bits of a number, bit 0 first.
fn writes(bits: &[Lit23], number: u8) -> bool {
    let mut same = bits.len() == 4;
    let mut rest = number;
    for bit in bits {
        same = same && *bit == Lit23::new(0, rest % 2 == 1);
        rest /= 2;
    }
    same
}

/// Unsigned, 9 by 2 is 4 and leaves 1.
fn unsigned(alloc: Global, b: &mut ListBuilder, x: &[Lit23], y: &[Lit23]) -> Result<bool, GateStop>
    requires lengths { length x.now ≡ length y.now }
    requires left { (m : Meaning) → AllKnown m x.now }
    requires right { (m : Meaning) → AllKnown m y.now }
{
    let (quotient, rest) = divide(alloc, b, x, y)?;
    let parts = writes(&quotient, 4) && writes(&rest, 1);
    let quotient = writes(&udiv(alloc, b, x, y)?, 4);
    let rest = writes(&umod(alloc, b, x, y)?, 1);
    Ok(parts && quotient && rest)
}

/// Signed, 9 is -7: by 2 it is -3 and leaves -1, or 1 with the sign of 2.
fn signed(alloc: Global, b: &mut ListBuilder, x: &[Lit23], y: &[Lit23]) -> Result<bool, GateStop>
    requires positive { 1 ≤ length x.now }
    requires lengths { length x.now ≡ length y.now }
    requires left { (m : Meaning) → AllKnown m x.now }
    requires right { (m : Meaning) → AllKnown m y.now }
{
    let quotient = writes(&sdiv(alloc, b, x, y)?, 13);
    let rest = writes(&srem(alloc, b, x, y)?, 15);
    let modulus = writes(&smod(alloc, b, x, y)?, 1);
    Ok(quotient && rest && modulus)
}

/// The divisor 0 gives 0, and leaves the dividend.
fn by_zero(alloc: Global, b: &mut ListBuilder, x: &[Lit23], y: &[Lit23]) -> Result<bool, GateStop>
    requires lengths { length x.now ≡ length y.now }
    requires left { (m : Meaning) → AllKnown m x.now }
    requires right { (m : Meaning) → AllKnown m y.now }
{
    let quotient = writes(&udiv(alloc, b, x, y)?, 0);
    let rest = writes(&umod(alloc, b, x, y)?, 9);
    Ok(quotient && rest)
}

#[test]
fn nine_divided(rt: HostRuntime) -> Result<(), Fail> {
    let alloc = rt.alloc();
    let mut list = ListBuilder::new(alloc, 1);
    let (no, yes) = (Lit23::new(0, false), Lit23::new(0, true));
    let nine = [yes, no, no, yes];
    let two = [no, yes, no, no];
    let zero = [no, no, no, no];
    assert!(rt; unsigned(alloc, &mut list, &nine, &two)?);
    assert!(rt; signed(alloc, &mut list, &nine, &two)?);
    assert!(rt; by_zero(alloc, &mut list, &nine, &zero)?);
    assert_eq!(rt; list.len(), 0);
    Ok(())
}
