//! The clauses of two small goals, as text.

use crate::clauses;
use cone_walk::{Ask, Cone, Walk};
use gate_shape::{Lit23, input};
use sat_form::dimacs;
use std::alloc::{AllocError, Global};

fn text(alloc: Global, cone: &Cone) -> Result<Vec<u8>, AllocError> {
    let mut out = Vec::new(alloc);
    let cnf = clauses(alloc, cone)?;
    dimacs(alloc, &cnf, &mut out)?;
    Ok(out)
}

/// The goals that a truth is true, and that two truths are equal: the edges are that they are false.
#[test]
fn writes_the_clauses_of_small_goals(rt: HostRuntime) -> Result<(), AllocError> {
    let alloc = rt.alloc();
    let (a, b) = (input(0, 0), input(1, 0));
    let (both, neither) = (Lit23::new(8193, false), Lit23::new(8194, false));

    let mut walk = Walk::start(alloc, a.not())?;
    let last = walk.next(None)?;
    assert_eq!(rt; last, Ask::Done);
    if let Ask::Done = last {
        let cone = walk.finish();
        let want = b"p cnf 2 2\n1 0\n-2 0\n";
        assert_eq!(rt; text(alloc, &cone)?.as_slice(), want.as_slice());
    }

    let mut walk = Walk::start(alloc, Lit23::new(8195, false))?;
    assert_eq!(rt; walk.next(None)?, Ask::Node(8195));
    assert_eq!(rt;
        walk.next(Some((both.not(), neither.not())))?,
        Ask::Node(8193)
    );
    assert_eq!(rt; walk.next(Some((a, b)))?, Ask::Node(8194));
    let last = walk.next(Some((a.not(), b.not())))?;
    assert_eq!(rt; last, Ask::Done);
    if let Ask::Done = last {
        let cone = walk.finish();
        let want =
            b"p cnf 6 11\n1 0\n-4 2 0\n-4 3 0\n4 -2 -3 0\n-5 -2 0\n-5 -3 0\n5 2 3 0\n-6 -4 0\n-6 -5 0\n6 4 5 0\n6 0\n";
        assert_eq!(rt; text(alloc, &cone)?.as_slice(), want.as_slice());
    }
    Ok(())
}
