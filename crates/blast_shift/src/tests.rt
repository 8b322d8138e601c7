//! Worked rows: each circuit once at constants, with memory for each call.

ghost use Rattle.std.specs.Prelude.{◌≡◌, ◌≤◌, IfOk, length};
ghost use Rattle.gate_shape.specs.Builds.{Meaning, AllKnown};

use crate::{
    ashr, ashr_by, bit, extract, lshr, lshr_by, msb, rotl, rotr, set_width, shl, shl_by,
    sign_extend,
};
use gate_shape::{GateStop, ListBuilder, Lit23, append};
use std::alloc::Global;
use std::test::Fail;

/// The bits of a number as literals, bit 0 first.
fn constants(alloc: Global, width: usize, number: u32) -> Result<Vec<Lit23>, GateStop>
    ensures known { IfOk result (λ v. (m : Meaning) → AllKnown m v.items) }
    ensures width { IfOk result (λ v. length v.items ≡ width) }
{
    let mut out = Vec::new(alloc);
    let mut left = number;
    for j in 0..width {
        let bit = Lit23::new(0, left % 2 == 1);
        append(&mut out, bit)?;
        left /= 2;
    }
    Ok(out)
}

/// Whether a call answered the bits of this number.
fn writes(
    alloc: Global,
    answer: Result<Vec<Lit23>, GateStop>,
    width: usize,
    number: u32,
) -> Result<bool, GateStop> {
    Ok(answer? == constants(alloc, width, number)?)
}

/// 0xb5 moved by numbers.
fn moved(alloc: Global, b: &mut ListBuilder, x: &[Lit23]) -> Result<bool, GateStop>
    requires positive { 1 ≤ length x.now }
    requires known { (m : Meaning) → AllKnown m x.now }
{
    let left = writes(alloc, shl_by(alloc, b, x, 3), 8, 0xa8)?;
    let right = writes(alloc, lshr_by(alloc, b, x, 3), 8, 0x16)?;
    let signed = writes(alloc, ashr_by(alloc, b, x, 3), 8, 0xf6)?;
    let up = writes(alloc, rotl(alloc, b, x, 11), 8, 0xad)?;
    let down = writes(alloc, rotr(alloc, b, x, 11), 8, 0xb6)?;
    Ok(left && right && signed && up && down)
}

/// Parts of 0xb5.
fn parted(alloc: Global, b: &mut ListBuilder, x: &[Lit23]) -> Result<bool, GateStop>
    requires positive { 1 ≤ length x.now }
    requires known { (m : Meaning) → AllKnown m x.now }
{
    let twice = writes(alloc, crate::append(alloc, b, x, x), 16, 0xb5b5)?;
    let inside = writes(alloc, extract(alloc, b, x, 2, 4), 4, 0xd)?;
    let zeros = writes(alloc, set_width(alloc, b, x, 12), 12, 0x0b5)?;
    let signed = writes(alloc, sign_extend(alloc, b, x, 12), 12, 0xfb5)?;
    let bits = bit(b, x, 2)?.sign() && msb(b, x)?.sign();
    Ok(twice && inside && zeros && signed && bits)
}

/// 0xb5 moved by 5, of four bits.
fn moved_by_vector(
    alloc: Global,
    b: &mut ListBuilder,
    x: &[Lit23],
    y: &[Lit23],
) -> Result<bool, GateStop>
    requires positive { 1 ≤ length x.now }
    requires left { (m : Meaning) → AllKnown m x.now }
    requires right { (m : Meaning) → AllKnown m y.now }
{
    let left = writes(alloc, shl(alloc, b, x, y), 8, 0xa0)?;
    let right = writes(alloc, lshr(alloc, b, x, y), 8, 0x05)?;
    let signed = writes(alloc, ashr(alloc, b, x, y), 8, 0xfd)?;
    Ok(left && right && signed)
}

/// Constants make no gate.
#[test]
fn constants_moved(rt: HostRuntime) -> Result<(), Fail> {
    let alloc = rt.alloc();
    let mut list = ListBuilder::new(alloc, 1);
    let x = constants(alloc, 8, 0xb5)?;
    let y = constants(alloc, 4, 5)?;
    assert!(rt; moved(alloc, &mut list, &x)?);
    assert!(rt; parted(alloc, &mut list, &x)?);
    assert!(rt; moved_by_vector(alloc, &mut list, &x, &y)?);
    assert_eq!(rt; list.len(), 0);
    Ok(())
}
