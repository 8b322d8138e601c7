//! Which lines of a log its empty clause needs, as marks by place.

ghost use Rattle.std.specs.Prelude.{◌||◌, ◌+◌, ◌<◌, ◌^◌, ◌≡◌, ℕ, true, false, IfOk, get_or, length, nat_eq};
ghost use Rattle.std.specs.List.{list_any};
ghost use Rattle.lrat_trim.specs.Derivation.{IsLog, are_earlier, logged_from};
ghost use Rattle.lrat_trim.specs.Marks.{AreClosed, mark_behind, marked_from};
ghost use Rattle.lrat_trim.specs.Trim.{keep};

use crate::lines::Lines;
use sat_form::Lit;
use std::alloc::{AllocError, Global};

/// Marks the line with an id; a given clause has no mark.
fn mark_id(marks: &mut [bool], inputs: u64, id: u64)
    requires { id < inputs + 1 + length marks.old }
    ensures { (j : ℕ) → j < length marks.old → get_or marks.new j false ≡ (nat_eq (inputs + 1 + j) id || get_or marks.old j false) }
{
    if id > inputs {
        marks[(id - inputs) as usize - 1] = true;
    }
}

/// Marks the lines that hints name.
fn mark_all(marks: &mut [bool], inputs: u64, hints: &[u32])
    requires { are_earlier (inputs + 1 + length marks.old) hints.now ≡ true }
    ensures { (j : ℕ) → j < length marks.old → get_or marks.new j false ≡ (list_any (nat_eq (inputs + 1 + j)) hints.now || get_or marks.old j false) }
{
    for hint in hints {
        mark_id(marks, inputs, u64::from(*hint));
    }
}

/// Marks the line at a place and what it names, if it is the empty clause or is marked.
fn mark_needed(marks: &mut [bool], inputs: u64, at: usize, lits: &[Lit], hints: &[u32])
    requires at { at < length marks.old }
    requires earlier { are_earlier (inputs + 1 + at) hints.now ≡ true }
    ensures { (j : ℕ) → j < length marks.old → get_or marks.new j false ≡ mark_behind inputs marks.old at lits.now hints.now j }
{
    if lits.len() == 0 || marks[at] {
        marks[at] = true;
        mark_all(marks, inputs, hints);
    }
}

/// A mark for each line that the empty clause reaches. O(number of lines and hints).
pub fn marks(alloc: Global, inputs: u64, lines: &Lines) -> Result<Vec<bool>, AllocError>
    requires { IsLog inputs lines.now }
    ensures size { IfOk result (λ marks. length marks.items ≡ length lines.now) }
    ensures kept { IfOk result (λ marks. marked_from marks.items 0 (logged_from (inputs + 1) lines.now) ≡ (keep (logged_from (inputs + 1) lines.now)).lines) }
    ensures closed { IfOk result (λ marks. AreClosed marks.items inputs 0 (logged_from (inputs + 1) lines.now)) }
{
    let mut marks = vec![in alloc; false; lines.len()]?;
    let mut at = lines.len();
    while at > 0 {
        at -= 1;
        let (lits, hints) = lines.line(at);
        mark_needed(&mut marks, inputs, at, lits, hints);
    }
    Ok(marks)
}
