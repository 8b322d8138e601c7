//! The marked lines of a log with new ids, each of which may be written.

ghost use Rattle.std.specs.Prelude.{◌+◌, ◌<◌, ◌^◌, ◌≡◌, true, IfOk, length, map};
ghost use Rattle.std.specs.List.{list_all};
ghost use Rattle.lrat_lines.specs.Lines.{is_hint, is_id, is_literal, is_writable};
ghost use Rattle.lrat_lines.specs.Lines.Line.{Add};
ghost use Rattle.lrat_lines.specs.Seen.{seen};
ghost use Rattle.lrat_trim.specs.Derivation.{IsLog, are_earlier, is_earlier, logged_from};
ghost use Rattle.lrat_trim.specs.Marks.{AreClosed, marked_from, moved_hints, moved_id};
ghost use Rattle.lrat_trim.specs.Trim.{keep, trim};

use crate::lines::Lines;
use lrat_lines::Line;
use sat_form::Lit;
use std::alloc::{AllocError, Global};

/// The same literals, each of which has its range.
fn copied_literals(alloc: Global, lits: &[Lit]) -> Result<Vec<Lit>, AllocError>
    ensures same { IfOk result (λ copy. copy.items ≡ lits.now) }
    ensures range { IfOk result (λ copy. list_all is_literal copy.items ≡ true) }
{
    let mut copy = Vec::with_capacity(alloc, lits.len())?;
    for lit in lits {
        copy.push(Lit::new(lit.var(), lit.positive()))?;
    }
    Ok(copy)
}

/// The new id of an earlier line, or of a given clause, which keeps its id.
fn moved(inputs: u64, ids: &[u64], id: u64) -> u64
    requires inputs { inputs < 2 ^ 62 }
    requires known { is_earlier (inputs + 1 + length ids.now) id ≡ true }
    requires ids { list_all is_id ids.now ≡ true }
    ensures new { result ≡ moved_id inputs ids.now id }
    ensures range { is_id result ≡ true }
{
    if id <= inputs {
        id
    } else {
        ids[(id - inputs) as usize - 1]
    }
}

/// The hints with the new ids of the lines before, which are given by place.
pub(crate) fn moved_hints(
    alloc: Global,
    inputs: u64,
    ids: &[u64],
    hints: &[u32],
) -> Result<Vec<i64>, AllocError>
    requires inputs { inputs < 2 ^ 62 }
    requires known { are_earlier (inputs + 1 + length ids.now) hints.now ≡ true }
    requires ids { list_all is_id ids.now ≡ true }
    ensures moved { IfOk result (λ moved. moved.items ≡ moved_hints inputs ids.now hints.now) }
    ensures range { IfOk result (λ moved. list_all is_hint moved.items ≡ true) }
{
    let mut new = Vec::with_capacity(alloc, hints.len())?;
    for hint in hints {
        new.push(moved(inputs, ids, u64::from(*hint)) as i64)?;
    }
    Ok(new)
}

/// A line under a new id.
fn moved_line(
    alloc: Global,
    inputs: u64,
    id: u64,
    ids: &[u64],
    lits: &[Lit],
    hints: &[u32],
) -> Result<Line, AllocError>
    requires inputs { inputs < 2 ^ 62 }
    requires id { is_id id ≡ true }
    requires known { are_earlier (inputs + 1 + length ids.now) hints.now ≡ true }
    requires ids { list_all is_id ids.now ≡ true }
    ensures moved { IfOk result (λ moved. seen moved ≡ Add id lits.now (moved_hints inputs ids.now hints.now)) }
    ensures writable { IfOk result (λ moved. is_writable (seen moved) ≡ true) }
{
    Ok(Line::Add {
        id,
        lits: copied_literals(alloc, lits)?,
        hints: moved_hints(alloc, inputs, ids, hints)?,
    })
}

/// The marked lines with new ids. O(number of lines, and of literals and hints of the marked ones).
pub fn marked_lines(
    alloc: Global,
    inputs: u64,
    lines: &Lines,
    marks: &[bool],
) -> Result<Vec<Line>, AllocError>
    requires log { IsLog inputs lines.now }
    requires size { length marks.now ≡ length lines.now }
    requires kept { marked_from marks.now 0 (logged_from (inputs + 1) lines.now) ≡ (keep (logged_from (inputs + 1) lines.now)).lines }
    requires closed { AreClosed marks.now inputs 0 (logged_from (inputs + 1) lines.now) }
    ensures lines { IfOk result (λ new. map seen new.items ≡ trim inputs (logged_from (inputs + 1) lines.now)) }
    ensures writable { IfOk result (λ new. list_all is_writable (map seen new.items) ≡ true) }
{
    let mut ids = Vec::new(alloc);
    let mut new = Vec::new(alloc);
    for (at, marked) in marks.iter().enumerate() {
        let id = inputs + new.len() as u64 + 1;
        if *marked {
            let (lits, hints) = lines.line(at);
            new.push(moved_line(alloc, inputs, id, &ids, lits, hints)?)?;
        }
        ids.push(id)?;
    }
    Ok(new)
}
