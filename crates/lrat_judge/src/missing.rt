//! Which clauses want a group: those with the negated pivot, none of whose other literals is true. The clauses that
//! have a group are put into a set once a line, so that a line with many groups doesn't go over them for each clause.

ghost use Rattle.std.specs.Prelude.{◌≡◌, IfOk};
ghost use Rattle.lrat_lines.specs.Judge.{split_hints};
ghost use Rattle.lrat_judge.specs.Named.{AreNamed, is_uncovered};

use crate::clause::{has_other_true, holds};
use crate::hints::{id_of, is_group};
use crate::marks::Marks;
use sat_form::Lit;
use std::alloc::{AllocError, Global};
use std::collections::BTreeSet;

/// The clauses that have a group. O(number of hints), and O(g log g) for g groups.
pub(crate) fn grouped(alloc: Global, groups: &[i64]) -> Result<BTreeSet<u64>, AllocError>
    ensures { IfOk result (λ named. AreNamed named (split_hints groups.now).groups) }
{
    let mut named = BTreeSet::new(alloc);
    for hint in groups {
        if is_group(hint) {
            named.insert(id_of(hint))?;
        }
    }
    Ok(named)
}

/// Whether a clause has the negated pivot, isn't named, and has no other literal that is true.
/// O(length of the clause), and O(log g) for g names.
pub(crate) fn is_missed(
    marks: &Marks,
    pivot: Lit,
    named: &BTreeSet<u64>,
    id: u64,
    clause: &[Lit],
) -> bool
    ensures { result ≡ is_uncovered marks.now pivot named.now (record { id = id; lits = clause.now }) }
{
    let negated = pivot.not();
    holds(clause, negated) && !named.contains(&id) && !has_other_true(marks, clause, negated)
}
