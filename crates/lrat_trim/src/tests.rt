//! A log over the clauses `1`, `-1 2` and `-2`, trimmed with ample memory. Its lines are `2`, which nothing needs, `-1`, and
//! the empty clause.

ghost use Rattle.std.specs.Prelude.{IfOk};
ghost use Rattle.lrat_trim.specs.Derivation.{IsFinished};

use crate::Log;
use lrat_lines::Line;
use sat_form::Lit;
use std::alloc::{AllocError, Global};
use std::test::Fail;

/// The log, and the ids that its lines were answered.
fn refutation(alloc: Global) -> Result<(Log, [u64; 3]), AllocError>
    ensures { IfOk result (λ r. IsFinished r.0.lines) }
{
    let mut log = Log::new(alloc, 3);
    let unneeded = log.push(&[Lit::new(2, true)], &[1, 2])?;
    let needed = log.push(&[Lit::new(1, false)], &[3, 2])?;
    let empty = log.push(&[], &[5, 1])?;
    Ok((log, [unneeded, needed, empty]))
}

/// Whether a line adds this clause under this id, with these hints.
fn adds(line: &Line, id: u64, lits: &[Lit], hints: &[i64]) -> bool {
    match line {
        Line::Add {
            id: its_id,
            lits: its_lits,
            hints: its_hints,
        } => *its_id == id && its_lits.as_slice() == lits && its_hints.as_slice() == hints,
        _ => false,
    }
}

#[test]
fn keeps_the_lines_that_are_needed(rt: HostRuntime) -> Result<(), Fail> {
    let (log, ids) = refutation(rt.alloc())?;
    assert_eq!(rt; ids, [4, 5, 6]);
    let lines = log.trim()?;
    assert_eq!(rt; lines.len(), 2);
    assert!(rt; adds(&lines[0], 4, &[Lit::new(1, false)], &[3, 2]));
    assert!(rt; adds(&lines[1], 5, &[], &[4, 1]));
    Ok(())
}

#[test]
fn writes_them_whole_or_line_by_line(rt: HostRuntime) -> Result<(), Fail> {
    let alloc = rt.alloc();
    let (log, _) = refutation(alloc)?;
    let mut whole = Vec::from_slice(alloc, b"c\n")?;
    log.write_trimmed(&mut whole)?;
    assert_eq!(rt;
        whole.as_slice(),
        b"c\n4 -1 0 3 2 0\n5 0 4 1 0\n".as_slice()
    );

    let mut trimming = log.trimming()?;
    let mut text = Vec::from_slice(alloc, b"c\n")?;
    for (more, size) in [(true, 2), (true, 15), (true, 25), (false, 25)] {
        assert_eq!(rt; trimming.write_next(&mut text)?, more);
        assert_eq!(rt; text.len(), size);
    }
    assert_eq!(rt; text, whole);
    Ok(())
}
