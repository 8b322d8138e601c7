//! Each circuit once with memory for each call, at constants, which make no gate, and at inputs.

ghost use Rattle.std.specs.Prelude.{◌≡◌, length};
ghost use Rattle.gate_shape.specs.Builds.{Meaning, AllKnown};

use crate::{
    and, behind_copies, choose, constant, copied, copies, implies, joined, masked, not, or,
    resized, truth_and, truth_const, truth_eq, truth_if, truth_not, truth_or, truth_var, truth_xor,
    variable, xor,
};
use bv_value::Bv;
use gate_shape::{GateStop, ListBuilder, Lit23, input};
use std::alloc::Global;
use std::test::Fail;

/// The connectives of true and false.
#[test]
fn truths(rt: HostRuntime) -> Result<(), Fail> {
    let mut list = ListBuilder::new(rt.alloc(), 1);
    let (no, yes) = (Lit23::new(0, false), Lit23::new(0, true));
    assert_eq!(rt; truth_const(&mut list, true)?, yes);
    assert_eq!(rt; truth_not(&mut list, yes)?, no);
    assert_eq!(rt; truth_and(&mut list, yes, no)?, no);
    assert_eq!(rt; truth_or(&mut list, yes, no)?, yes);
    assert_eq!(rt; truth_xor(&mut list, yes, yes)?, no);
    assert_eq!(rt; truth_eq(&mut list, no, no)?, yes);
    assert_eq!(rt; implies(&mut list, yes, no)?, no);
    assert_eq!(rt; truth_if(&mut list, no, yes, no)?, no);
    assert_eq!(rt; list.len(), 0);
    Ok(())
}

/// An implication makes one gate, and a choice three; both are negations of their last gate.
#[test]
fn gates_of_truths(rt: HostRuntime) -> Result<(), Fail> {
    let mut list = ListBuilder::new(rt.alloc(), 4);
    let (a, b) = (input(0, 0), input(1, 0));
    let c = truth_var(&mut list, 2)?;
    assert_eq!(rt; c, Lit23::new(257, false));
    assert_eq!(rt; implies(&mut list, a, b)?, Lit23::new(8193, true));
    assert_eq!(rt; truth_if(&mut list, c, a, b)?, Lit23::new(8196, true));
    assert_eq!(rt; list.len(), 4);
    Ok(())
}

/// Whether a call answered the four bits of this number, bit 0 first.
fn writes(answer: Result<Vec<Lit23>, GateStop>, number: u8) -> Result<bool, GateStop> {
    let bits = answer?;
    let mut same = bits.len() == 4;
    let mut rest = number;
    for bit in &bits {
        same = same && *bit == Lit23::new(0, rest % 2 == 1);
        rest /= 2;
    }
    Ok(same)
}

/// The bitwise operators at the bits of 5 and 12.
fn bitwise(alloc: Global, b: &mut ListBuilder, x: &[Lit23], y: &[Lit23]) -> Result<bool, GateStop>
    requires lengths { length x.now ≡ length y.now }
    requires left { (m : Meaning) → AllKnown m x.now }
    requires right { (m : Meaning) → AllKnown m y.now }
{
    let turned = writes(not(alloc, b, x), 10)?;
    let both = writes(and(alloc, b, x, y), 4)?;
    let either = writes(or(alloc, b, x, y), 13)?;
    let differ = writes(xor(alloc, b, x, y), 9)?;
    let chosen = writes(choose(alloc, b, Lit23::new(0, false), x, y), 12)?;
    let kept = writes(masked(alloc, b, Lit23::new(0, true), x), 5)?;
    Ok(turned && both && either && differ && chosen && kept)
}

/// Constants make no gate.
#[test]
fn constants(rt: HostRuntime) -> Result<(), Fail> {
    let alloc = rt.alloc();
    let mut list = ListBuilder::new(alloc, 1);
    let (no, yes) = (Lit23::new(0, false), Lit23::new(0, true));
    assert!(rt; bitwise(alloc, &mut list, &[yes, no, yes, no], &[no, no, yes, yes])?);
    assert!(rt; writes(constant(alloc, &mut list, &Bv::new(4, 13)), 13)?);
    assert_eq!(rt; list.len(), 0);
    Ok(())
}

/// The bits of variable 1 are the nodes from 129 on.
#[test]
fn bits_of_a_variable(rt: HostRuntime) -> Result<(), Fail> {
    let alloc = rt.alloc();
    let mut list = ListBuilder::new(alloc, 1);
    let bits = variable(alloc, &mut list, 1, 2)?;
    assert_eq!(rt;
        bits[..],
        [Lit23::new(129, false), Lit23::new(130, false)][..]
    );
    Ok(())
}

/// Whether a call answered these literals.
fn answers(answer: Result<Vec<Lit23>, GateStop>, bits: &[Lit23]) -> Result<bool, GateStop> {
    let list = answer?;
    Ok(list.as_slice() == bits)
}

/// Lists behind one another, and copies of a literal.
#[test]
fn lists_of_literals(rt: HostRuntime) -> Result<(), Fail> {
    let alloc = rt.alloc();
    let (no, yes) = (Lit23::new(0, false), Lit23::new(0, true));
    assert!(rt; answers(copied(alloc, &[no, yes]), &[no, yes])?);
    assert!(rt; answers(copies(alloc, yes, 2), &[yes, yes])?);
    assert!(rt; answers(joined(alloc, &[no], &[yes, no]), &[no, yes, no])?);
    assert!(rt; answers(behind_copies(alloc, no, 2, &[yes]), &[no, no, yes])?);
    assert!(rt; answers(resized(alloc, &[no, yes], yes, 3), &[no, yes, yes])?);
    assert!(rt; answers(resized(alloc, &[no, yes], yes, 1), &[no])?);
    Ok(())
}
