//! Lines over two opposite units: each row of the table is some lines, with what the last of them is answered.

use crate::{Cause, Judge, Judged};
use lrat_lines::{Line, LineStop, read_line};
use sat_form::{Clauses, Cnf, Lit};
use std::alloc::{AllocError, Global};

/// What the last of some lines is answered over the clauses (1) and (-1); `None` where there is no line.
fn answer(alloc: Global, texts: &[&[u8]]) -> Result<Option<Judged>, LineStop> {
    let mut clauses = Clauses::new(alloc);
    clauses.push(&[Lit::new(1, true)])?;
    clauses.push(&[Lit::new(1, false)])?;
    let mut judge = Judge::new(alloc, &Cnf { vars: 1, clauses })?;
    let mut last = None;
    for text in texts {
        last = Some(judge.take(read_line(alloc, text)?)?);
    }
    Ok(last)
}

const ROWS: [(&[&[u8]], Judged); 18] = [
    (&[b"3 0 1 2 0"], Judged::Empty),
    (&[b"3 7 0 0"], Judged::Kept),
    (&[b"3 7 0 0", b"4 0 1 2 0"], Judged::Empty),
    (&[b"3 2147483647 0 0"], Judged::Kept),
    (&[b"3 0 2 0"], Judged::Refused(Cause::NoConflict)),
    (&[b"2 0 1 2 0"], Judged::Refused(Cause::IdInUse)),
    (&[b"3 0 9 0"], Judged::Refused(Cause::NoClause(9))),
    (&[b"3 7 0 -1 0"], Judged::Refused(Cause::StrangeGroup(1))),
    (&[b"3 1 -1 0 0"], Judged::Kept),
    (&[b"3 d 1 0"], Judged::Kept),
    (
        &[b"3 d 1 0", b"4 0 1 2 0"],
        Judged::Refused(Cause::NoClause(1)),
    ),
    (&[b"c comment"], Judged::Kept),
    (&[b"3 -1 0 0"], Judged::Refused(Cause::MissingGroup(1))),
    (
        &[b"3 7 0 0", b"4 -7 0 -3 0"],
        Judged::Refused(Cause::NoConflict),
    ),
    (
        &[b"3 7 0 0", b"4 8 9 0 3 3 0"],
        Judged::Refused(Cause::NotUnit(3)),
    ),
    (
        &[b"3 7 0 0", b"4 -7 1 0 -3 2 0"],
        Judged::Refused(Cause::NotUnit(2)),
    ),
    (&[b"3 7 0 0", b"4 -7 1 0 -3 1 0"], Judged::Kept),
    (
        &[b"3 7 0 0", b"4 -7 1 0 0"],
        Judged::Refused(Cause::MissingGroup(3)),
    ),
];

#[test]
fn lines_over_opposite_units(rt: HostRuntime) {
    for (texts, wanted) in &ROWS {
        let got = answer(rt.alloc(), texts).expect(&rt, "memory");
        assert_eq!(rt; got, Some(*wanted), "{}", texts.len());
    }
}
