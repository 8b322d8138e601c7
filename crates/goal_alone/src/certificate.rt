//! The certificate of a goal: the trimmed log of its search, as text.
ghost use Rattle.std.specs.Prelude.{◌≡◌, false, length, IfOk};
ghost use Rattle.search_learn.specs.declared.Turn.TheVariants.{Unsat};
ghost use Rattle.lrat_lines.specs.Judge.{Checks};
ghost use Rattle.lrat_lines.specs.Lines.{Text, written};
ghost use Rattle.lrat_trim.specs.Trim.{trim};

use cdcl_solver::Search;
use std::alloc::{AllocError, Global};

/// The text of the trimmed log of a search that ended with `Unsat`. The only error is want of memory.
/// Takes time by the size of the log, and memory by the text.
pub fn certificate(alloc: Global, search: &Search) -> Result<Vec<u8>, AllocError>
    requires whole { search.now.broken ≡ false }
    requires unsat { search.now.machine.state.end ≡ Unsat }
    ensures text { IfOk result (λ text. text.items ≡ written (trim (length search.now.clauses) search.now.machine.log)) }
    ensures lines { IfOk result (λ text. Text text.items (trim (length search.now.clauses) search.now.machine.log)) }
    ensures checks { Checks search.now.clauses (trim (length search.now.clauses) search.now.machine.log) }
{
    let mut text = Vec::new(alloc);
    search.log().write_trimmed(&mut text)?;
    Ok(text)
}
