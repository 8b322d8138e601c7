//! Hints: unit propagation in the order that a line gives, so that the work for a hint is the length of the clause that
//! it names. Hints stay as the line has them; nothing is copied to tell the groups apart.

ghost use Rattle.std.specs.Prelude.{◌≡◌, ℕ, ◌≤◌, ◌<◌, List, [], ◌∷◌, map, take, drop, length, nat_abs, None, Some, IfOk, IfSome, IfNone, false};
ghost use Rattle.sat_form.specs.Literals.{Literal};
ghost use Rattle.sat_form.specs.Assignment.{clause_false, unit_literal};
ghost use Rattle.lrat_lines.specs.Judge as judge;
ghost use Rattle.lrat_judge.specs.Marked.{Same};
ghost use Rattle.lrat_judge.specs.Scanned.{Scanned, IsState};
ghost use Rattle.lrat_judge.specs.Taken.{Comes, begins_group};

use crate::cause::Cause;
use crate::known::Known;
use crate::marks::Marks;
use sat_form::Lit;
use std::alloc::AllocError;

/// What hints come to.
#[derive(Clone, Copy, Debug, PartialEq, Eq)]
pub(crate) enum Taken {
    Conflict,
    Open,
    Stop(Cause),
}

/// What a clause is under the literals that are true.
#[derive(Clone, Copy, Debug, PartialEq, Eq)]
pub(crate) enum State {
    False,
    Unit(Lit),
    Neither,
}

/// The literal that isn't false, with one more literal of the clause; none where the clause is neither false nor unit.
fn with_literal(marks: &Marks, unit: Option<Lit>, lit: Lit) -> Option<Option<Lit>>
    ensures some { IfSome result (λ next. (c rest : List Literal) → Scanned marks.now c unit (lit ∷ rest) → Scanned marks.now c next rest) }
    ensures none { IfNone result ((c rest : List Literal) → Scanned marks.now c unit (lit ∷ rest) → (clause_false marks.now c ≡ false) × (unit_literal marks.now c ≡ None)) }
{
    if marks.is_false(lit) {
        return Some(unit);
    }
    match unit {
        Some(first) => { if first == lit { Some(unit) } else { None } }
        None => {
            if marks.is_true(lit) {
                None
            } else {
                Some(Some(lit))
            }
        }
    }
}

/// What a clause is.
pub(crate) fn state_of(marks: &Marks, clause: &[Lit]) -> State
    ensures { IsState marks.now clause.now result }
{
    let mut unit = None;
    for lit in clause {
        match with_literal(marks, unit, *lit) {
            Some(next) => unit = next,
            None => return State::Neither,
        }
    }
    match unit {
        Some(lit) => State::Unit(lit),
        None => State::False,
    }
}

/// Takes one hint: its clause must be there, and be wholly false or unit.
fn take_hint(known: &Known, marks: &mut Marks, id: u64) -> Result<Taken, AllocError>
    ensures taken { IfOk result (λ t. (a : List Literal) → Same marks.old a → Comes marks.new (judge.take_clause id a (judge.clause_of known.now id)) t) }
    ensures keeps { take (length marks.old) marks.new ≡ marks.old }
{
    let Some(clause) = known.get(id) else {
        return Ok(Taken::Stop(Cause::NoClause(id)));
    };
    match state_of(marks, clause) {
        State::False => Ok(Taken::Conflict),
        State::Unit(lit) => {
            marks.assign(lit)?;
            Ok(Taken::Open)
        }
        State::Neither => Ok(Taken::Stop(Cause::NotUnit(id))),
    }
}

/// Takes hints in order, up to a conflict.
pub(crate) fn take_hints(
    known: &Known,
    marks: &mut Marks,
    hints: &[i64],
) -> Result<Taken, AllocError>
    ensures taken { IfOk result (λ t. (a : List Literal) → Same marks.old a → Comes marks.new (judge.take_hints known.now a (map nat_abs hints.now)) t) }
    ensures keeps { take (length marks.old) marks.new ≡ marks.old }
{
    for hint in hints {
        match take_hint(known, marks, id_of(hint))? {
            Taken::Open => {}
            taken => return Ok(taken),
        }
    }
    Ok(Taken::Open)
}

/// Whether a hint begins a group.
pub(crate) fn is_group(hint: &i64) -> bool
    ensures { result ≡ begins_group hint.now }
{
    *hint < 0
}

/// The id that a hint names.
pub(crate) fn id_of(hint: &i64) -> u64
    ensures { result ≡ nat_abs hint.now }
{
    hint.unsigned_abs()
}

/// How many hints stand before the first group.
pub(crate) fn leading(hints: &[i64]) -> usize
    ensures within { result ≤ length hints.now }
    ensures first { (judge.split_hints hints.now).first ≡ map nat_abs (take result hints.now) }
    ensures groups { judge.split_hints (drop result hints.now) ≡ record { first = []; groups = (judge.split_hints hints.now).groups } }
{
    for (at, hint) in hints.iter().enumerate() {
        if is_group(hint) {
            return at;
        }
    }
    hints.len()
}
