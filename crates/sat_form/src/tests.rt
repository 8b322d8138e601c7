//! A formula of two clauses, as it is written and judged with ample memory.

use crate::{Clauses, Cnf, Lit, dimacs};
use std::alloc::AllocError;

#[test]
fn writes_judges_and_copies_a_formula(rt: HostRuntime) -> Result<(), AllocError> {
    let alloc = rt.alloc();
    let mut clauses = Clauses::new(alloc);
    clauses.push(&[Lit::new(1, true)])?;
    clauses.push(&[Lit::new(2, true).not()])?;
    let cnf = Cnf { vars: 2, clauses };

    let mut text = Vec::from_slice(alloc, b"c two\n")?;
    dimacs(alloc, &cnf, &mut text)?;
    assert_eq!(rt;
        text.as_slice(),
        b"c two\np cnf 2 2\n1 0\n-2 0\n".as_slice()
    );

    let copy = cnf.copy(alloc)?;
    for (first, second, want) in [
        (true, false, true),
        (true, true, false),
        (false, false, false),
    ] {
        assert_eq!(rt; copy.holds(&[first, second]), want, "at {first}, {second}");
    }
    assert_eq!(rt; copy.clauses.get(1), Some([Lit::new(2, false)].as_slice()));
    assert_eq!(rt; copy.clauses.get(2), None);
    Ok(())
}
