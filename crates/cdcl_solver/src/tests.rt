//! A search with ample memory, and that searches may cross threads.

use crate::Search;
use sat_form::{Clauses, Cnf, Lit};
use search_learn::Turn;
use std::alloc::AllocError;

fn crosses_threads<T: Send + Sync>(_value: &T) {}

/// The first step puts the one literal on the trail, and the second learns the empty clause.
#[test]
fn refutes_two_opposite_units(rt: HostRuntime) -> Result<(), AllocError> {
    let alloc = rt.alloc();
    let mut clauses = Clauses::new(alloc);
    clauses.push(&[Lit::new(1, true)])?;
    clauses.push(&[Lit::new(1, false)])?;
    let mut search = Search::new(alloc, &Cnf { vars: 1, clauses }, 100)?;
    crosses_threads(&search);
    assert_eq!(rt; search.turn(1)?, Turn::More);
    assert_eq!(rt; search.turn(9)?, Turn::Unsat);
    assert_eq!(rt; search.spent(), 2);
    assert_eq!(rt; search.values(), None);
    Ok(())
}
