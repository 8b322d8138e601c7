//! Worked rows: the deepest chain of gates, a list that is filled, and gates that are shared.

use crate::builder::{Builder, GateStop};
use crate::list::ListBuilder;
use crate::lit::input;
use crate::rows::{full_adder, ite, or2, xor2};
use std::test::Fail;

/// Each gate of the chain is one level above the one before, up to the greatest level that a gate
/// word holds.
#[test]
fn deepest_chain(rt: HostRuntime) -> Result<(), Fail> {
    let mut list = ListBuilder::new(rt.alloc(), 300_000);
    let a = input(0, 0);
    let mut last = list.and(a, input(1, 0))?;
    for level in 2..262_144u32 {
        last = list.and(a, last.not())?;
        assert!(rt; last.node() >= 8193);
        assert_eq!(rt; list.fanins(last).2, level);
    }
    assert_eq!(rt; list.len(), 262_143);
    assert!(rt; matches!(list.and(a, last.not()), Err(GateStop::Deep)));
    Ok(())
}

/// An exclusive disjunction of two inputs takes three gates.
#[test]
fn filled(rt: HostRuntime) -> Result<(), Fail> {
    let mut list = ListBuilder::new(rt.alloc(), 2);
    let (a, b) = (input(0, 0), input(1, 0));
    assert!(rt; matches!(xor2(&mut list, a, b), Err(GateStop::Full)));
    assert_eq!(rt; list.len(), 2);
    assert_eq!(rt; list.and(b, a)?.node(), 8193);
    assert_eq!(rt; list.and(b.not(), a.not())?.node(), 8194);
    Ok(())
}

/// A disjunction has one gate, an exclusive disjunction and a choice three each, and a full adder
/// seven, of which those already there are not made again.
#[test]
fn shared_gates(rt: HostRuntime) -> Result<(), Fail> {
    let mut list = ListBuilder::new(rt.alloc(), 4_000_000);
    let (a, b, c) = (input(0, 0), input(0, 1), input(63, 127));
    assert_eq!(rt; c.node(), 8192);
    or2(&mut list, a, b)?;
    assert_eq!(rt; list.len(), 1);
    xor2(&mut list, b, a)?;
    assert_eq!(rt; list.len(), 3);
    ite(&mut list, c, a, b)?;
    assert_eq!(rt; list.len(), 6);
    let (sum, carry) = full_adder(&mut list, a, b, c)?;
    assert_eq!(rt; list.len(), 10);
    assert_eq!(rt; sum.node(), 8193 + 8);
    assert_eq!(rt; carry.node(), 8193 + 9);
    assert!(rt; carry.sign());
    Ok(())
}
