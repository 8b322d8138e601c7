//! Judging lines, and the clauses that they leave.

ghost use Rattle.std.specs.Prelude.{◌≡◌, List, [], IfOk, OnErr};
ghost use Rattle.std.specs.Option.{option_map};
ghost use Rattle.sat_form.specs.Literals.{Literal};
ghost use Rattle.lrat_lines.specs.Judge as judge;
ghost use Rattle.lrat_lines.specs.Judge.{given, is_last};
ghost use Rattle.lrat_lines.specs.Lines.Line.{Add as Addition};
ghost use Rattle.lrat_lines.specs.Seen.{seen};
ghost use Rattle.lrat_judge.specs.Marked.{Same};
ghost use Rattle.lrat_judge.specs.Assumed.{judge_new};
ghost use Rattle.lrat_judge.specs.Judged.{IsJudged, cause_shown};

use crate::assumption::assume;
use crate::cause::{Cause, Judged};
use crate::groups::judge_groups;
use crate::hints::{Taken, leading, take_hints};
use crate::known::Known;
use crate::marks::Marks;
use lrat_lines::Line;
use sat_form::{Cnf, Lit};
use std::alloc::{AllocError, Global};
use std::marker::Model;

/// The clauses that lines may name, and the marks that judging a line wants, kept so that a line takes no memory anew
/// for them. Contracts see the clauses alone: no literal is marked between two lines, after want of memory neither.
#[derive(Drop)]
pub struct Judge {
    alloc: Global,
    known: Known,
    marks: Marks,
}

impl Model for Judge {
    ghost use Rattle.std.specs.Prelude.{◌≡◌, []};
    ghost use Rattle.lrat_lines.specs.Judge.{Clauses};

    ghost Value = { Clauses };

    ghost view = { λ j. j.known };

    ghost invariant = { λ j. j.marks ≡ [] };
}

/// Judges the groups behind hints that made no conflict.
fn judge_pivot(
    alloc: Global,
    known: &Known,
    marks: &mut Marks,
    lits: &[Lit],
    groups: &[i64],
) -> Result<Option<Cause>, AllocError>
    requires { (judge.split_hints groups.now).first ≡ [] }
    ensures cause { IfOk result (λ cause. (a : List Literal) → Same marks.old a → option_map cause_shown cause ≡ judge.judge_pivot known.now a lits.now (judge.split_hints groups.now).groups) }
{
    let Some(pivot) = lits.first() else {
        return Ok(Some(Cause::NoConflict));
    };
    if let Some(cause) = judge_groups(known, marks, *pivot, groups)? {
        return Ok(Some(cause));
    }
    known.missing(alloc, marks, *pivot, groups)
}

/// Judges an addition whose id isn't in use.
fn judge_lits(
    alloc: Global,
    known: &Known,
    marks: &mut Marks,
    lits: &[Lit],
    hints: &[i64],
) -> Result<Option<Cause>, AllocError>
    requires { marks.old ≡ [] }
    ensures cause { IfOk result (λ cause. option_map cause_shown cause ≡ judge_new known.now lits.now (judge.split_hints hints.now)) }
{
    if !assume(marks, lits, None)? {
        return Ok(None);
    }
    let (first, groups) = hints.split_at(leading(hints));
    match take_hints(known, marks, first)? {
        Taken::Conflict => Ok(None),
        Taken::Stop(cause) => Ok(Some(cause)),
        Taken::Open => judge_pivot(alloc, known, marks, lits, groups),
    }
}

/// Why an addition is refused, if it is.
fn judge_add(
    alloc: Global,
    known: &Known,
    marks: &mut Marks,
    id: u64,
    lits: &[Lit],
    hints: &[i64],
) -> Result<Option<Cause>, AllocError>
    requires { marks.old ≡ [] }
    ensures cause { IfOk result (λ cause. option_map cause_shown cause ≡ judge.judge_add known.now id lits.now (judge.split_hints hints.now)) }
    ensures marks { marks.new ≡ [] }
{
    if known.get(id).is_some() {
        return Ok(Some(Cause::IdInUse));
    }
    let cause = judge_lits(alloc, known, marks, lits, hints);
    marks.undo_to(0);
    cause
}

impl Judge {
    /// The clauses of a formula, under the ids 1 to m. O(number of variables, of literals, and m log m).
    pub fn new(alloc: Global, cnf: &Cnf) -> Result<Judge, AllocError>
        ensures { IfOk result (λ judge. judge ≡ given cnf.now.clauses) }
    {
        Ok(Judge {
            alloc,
            known: Known::given(alloc, cnf)?,
            marks: Marks::new(alloc, cnf.vars)?,
        })
    }

    /// Judges an addition, and takes over its clause.
    fn add(&mut self, id: u64, lits: Vec<Lit>, hints: &[i64]) -> Result<Judged, AllocError>
        ensures judged { IfOk result (λ judged. IsJudged judged self.old self.new (judge.judge self.old (Addition id lits.items hints.now)) (is_last (Addition id lits.items hints.now))) }
        ensures err { OnErr result (self.new ≡ self.old) }
    {
        if let Some(cause) = judge_add(
            self.alloc,
            &self.known,
            &mut self.marks,
            id,
            &lits,
            hints,
        )? {
            return Ok(Judged::Refused(cause));
        }
        let judged = if lits.is_empty() {
            Judged::Empty
        } else {
            Judged::Kept
        };
        self.known.add(id, lits)?;
        Ok(judged)
    }

    /// Judges a line, and takes over what it adds or deletes. A line that is refused leaves the clauses as they were. The
    /// only error is want of memory, which leaves them likewise.
    ///
    /// A hint costs the length of the clause that it names, and each id that is named O(log n) for n clauses. Where the
    /// hints before the groups make no conflict, all clauses are gone over once for the negated pivot.
    pub fn take(&mut self, line: Line) -> Result<Judged, AllocError>
        ensures judged { IfOk result (λ judged. IsJudged judged self.old self.new (judge.judge self.old (seen line)) (is_last (seen line))) }
        ensures err { OnErr result (self.new ≡ self.old) }
    {
        match line {
            Line::Skip => Ok(Judged::Kept),
            Line::Delete { ids, .. } => {
                self.known.delete(&ids);
                Ok(Judged::Kept)
            }
            Line::Add { id, lits, hints } => self.add(id, lits, &hints),
        }
    }
}
