//! A walk over a small circuit, told by hand, and that cones may cross threads.

use crate::{Ask, ConeNode, Walk};
use gate_shape::{Lit23, input};
use sat_form::Lit;
use std::alloc::AllocError;

fn crosses_threads<T: Send + Sync>(_value: &T) {}

/// The exclusive or of two inputs: the gates 8193 and 8194 are both and neither, and 8195 is that both are false.
#[test]
fn numbers_inputs_and_gates_in_order_of_completion(rt: HostRuntime) -> Result<(), AllocError> {
    let alloc = rt.alloc();
    let (a, b) = (input(0, 0), input(1, 0));
    let (both, neither) = (Lit23::new(8193, false), Lit23::new(8194, false));
    let mut walk = Walk::start(alloc, Lit23::new(8195, false))?;
    assert_eq!(rt; walk.next(None)?, Ask::Node(8195));
    assert_eq!(rt;
        walk.next(Some((both.not(), neither.not())))?,
        Ask::Node(8193)
    );
    assert_eq!(rt; walk.next(Some((a, b)))?, Ask::Node(8194));
    let last = walk.next(Some((a.not(), b.not())))?;
    assert_eq!(rt; last, Ask::Done);
    if let Ask::Done = last {
        let cone = walk.finish();
        crosses_threads(&cone);
        let (first, second) = (Lit::new(2, true), Lit::new(3, true));
        let want = [
            ConeNode::Input(0, 0),
            ConeNode::Input(1, 0),
            ConeNode::Gate(first, second),
            ConeNode::Gate(first.not(), second.not()),
            ConeNode::Gate(Lit::new(4, false), Lit::new(5, false)),
        ];
        assert_eq!(rt; cone.nodes.as_slice(), want.as_slice());
        assert_eq!(rt; cone.root, Lit::new(6, true));
    }
    Ok(())
}
