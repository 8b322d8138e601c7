//! Groups of hints: a resolution asymmetric tautology is judged clause by clause, each clause with the negated pivot by
//! the group that names it.

ghost use Rattle.std.specs.Prelude.{◌≡◌, List, [], map, take, length, nat_abs, IfOk};
ghost use Rattle.std.specs.Option.{option_map};
ghost use Rattle.sat_form.specs.Literals.{Literal};
ghost use Rattle.lrat_lines.specs.Judge as judge;
ghost use Rattle.lrat_judge.specs.Marked.{Same};
ghost use Rattle.lrat_judge.specs.Assumed.{judge_others};
ghost use Rattle.lrat_judge.specs.Judged.{cause_shown};

use crate::assumption::assume;
use crate::cause::Cause;
use crate::clause::holds;
use crate::hints::{Taken, id_of, leading, take_hints};
use crate::known::Known;
use crate::marks::Marks;
use sat_form::Lit;
use std::alloc::AllocError;

/// What a group comes to, once its clause's other literals are assumed to be false.
fn group_cause(
    known: &Known,
    marks: &mut Marks,
    clause: &[Lit],
    left_out: Lit,
    hints: &[i64],
) -> Result<Option<Cause>, AllocError>
    ensures cause { IfOk result (λ cause. (a : List Literal) → Same marks.old a → option_map cause_shown cause ≡ judge_others known.now a (judge.others clause.now left_out) (map nat_abs hints.now)) }
    ensures keeps { take (length marks.old) marks.new ≡ marks.old }
{
    if !assume(marks, clause, Some(left_out))? {
        return Ok(None);
    }
    match take_hints(known, marks, hints)? {
        Taken::Conflict => Ok(None),
        Taken::Stop(cause) => Ok(Some(cause)),
        Taken::Open => Ok(Some(Cause::NoConflict)),
    }
}

/// Judges a group, and leaves the marks as they were.
fn judge_group(
    known: &Known,
    marks: &mut Marks,
    pivot: Lit,
    id: u64,
    hints: &[i64],
) -> Result<Option<Cause>, AllocError>
    ensures cause { IfOk result (λ cause. (a : List Literal) → Same marks.old a → option_map cause_shown cause ≡ judge.judge_group_clause known.now a pivot (record { id = id; hints = map nat_abs hints.now }) (judge.clause_of known.now id)) }
    ensures marks { marks.new ≡ marks.old }
{
    let Some(clause) = known.get(id) else {
        return Ok(Some(Cause::NoClause(id)));
    };
    if !holds(clause, pivot.not()) {
        return Ok(Some(Cause::StrangeGroup(id)));
    }
    let count = marks.len();
    let cause = group_cause(known, marks, clause, pivot.not(), hints);
    marks.undo_to(count);
    cause
}

/// Judges groups, up to the first that is refused.
pub(crate) fn judge_groups(
    known: &Known,
    marks: &mut Marks,
    pivot: Lit,
    groups: &[i64],
) -> Result<Option<Cause>, AllocError>
    requires { (judge.split_hints groups.now).first ≡ [] }
    ensures cause { IfOk result (λ cause. (a : List Literal) → Same marks.old a → option_map cause_shown cause ≡ judge.judge_groups known.now a pivot (judge.split_hints groups.now).groups) }
    ensures marks { marks.new ≡ marks.old }
{
    let mut rest = groups;
    while let Some((named, behind)) = rest.split_first() {
        let (hints, others) = behind.split_at(leading(behind));
        if let Some(cause) = judge_group(known, marks, pivot, id_of(named), hints)? {
            return Ok(Some(cause));
        }
        rest = others;
    }
    Ok(None)
}
