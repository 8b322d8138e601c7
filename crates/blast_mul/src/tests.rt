//! Vectors of constants make no gate, so the call answers constants: a worked value at width 4.

use crate::mul;
use gate_shape::{ListBuilder, Lit23};
use std::test::Fail;

/// 5 * 7 is 35, which is 3 modulo 16.
#[test]
fn product(rt: HostRuntime) -> Result<(), Fail> {
    let alloc = rt.alloc();
    let mut list = ListBuilder::new(alloc, 1);
    let (no, yes) = (Lit23::new(0, false), Lit23::new(0, true));
    let bits = mul(alloc, &mut list, &[yes, no, yes, no], &[yes, yes, yes, no])?;
    assert_eq!(rt; bits[..], [yes, yes, no, no][..]);
    assert_eq!(rt; list.len(), 0);
    Ok(())
}
