//! Vectors of constants make no gate, so each call answers constants: worked values at width 4.

ghost use Rattle.std.specs.Prelude.{◌≡◌, ◌≤◌, length};
ghost use Rattle.gate_shape.specs.Builds.{Meaning, AllKnown};

use crate::{add, eq, neg, sle, slt, sub, ule, ult};
use gate_shape::{GateStop, ListBuilder, Lit23};
use std::alloc::Global;
use std::test::Fail;

/// Whether these are the four bits of a number, bit 0 first.
fn writes(bits: &[Lit23], number: u8) -> bool {
    let mut same = bits.len() == 4;
    let mut rest = number;
    for bit in bits {
        same = same && *bit == Lit23::new(0, rest % 2 == 1);
        rest /= 2;
    }
    same
}

/// 5 + 12 + 1 is 18, so 2 and a carry; 5 - 12 is 9 modulo 16, and -5 is 11.
fn sums(alloc: Global, b: &mut ListBuilder, x: &[Lit23], y: &[Lit23]) -> Result<bool, GateStop>
    requires lengths { length x.now ≡ length y.now }
    requires left { (m : Meaning) → AllKnown m x.now }
    requires right { (m : Meaning) → AllKnown m y.now }
{
    let yes = Lit23::new(0, true);
    let (sums, carry) = add(alloc, b, x, y, yes)?;
    let sum = writes(&sums, 2) && carry == yes;
    let difference = writes(&sub(alloc, b, x, y)?, 9);
    let negative = writes(&neg(alloc, b, x)?, 11);
    Ok(sum && difference && negative)
}

/// Unsigned, 5 is below 12; signed, 12 is -4 and below 5.
fn comparisons(
    alloc: Global,
    b: &mut ListBuilder,
    x: &[Lit23],
    y: &[Lit23],
) -> Result<bool, GateStop>
    requires positive { 1 ≤ length x.now }
    requires lengths { length x.now ≡ length y.now }
    requires left { (m : Meaning) → AllKnown m x.now }
    requires right { (m : Meaning) → AllKnown m y.now }
{
    let (no, yes) = (Lit23::new(0, false), Lit23::new(0, true));
    let equal = eq(b, x, y)? == no && eq(b, x, x)? == yes;
    let unsigned = ult(alloc, b, x, y)? == yes && ule(alloc, b, y, x)? == no;
    let signed = slt(alloc, b, x, y)? == no && sle(alloc, b, y, x)? == yes;
    Ok(equal && unsigned && signed)
}

#[test]
fn five_and_twelve(rt: HostRuntime) -> Result<(), Fail> {
    let alloc = rt.alloc();
    let mut list = ListBuilder::new(alloc, 1);
    let (no, yes) = (Lit23::new(0, false), Lit23::new(0, true));
    let five = [yes, no, yes, no];
    let twelve = [no, no, yes, yes];
    assert!(rt; sums(alloc, &mut list, &five, &twelve)?);
    assert!(rt; comparisons(alloc, &mut list, &five, &twelve)?);
    assert_eq!(rt; list.len(), 0);
    Ok(())
}
