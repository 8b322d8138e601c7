//! Laws of the trees of a file. Each stands as the contract of a function that does nothing, so that the prover holds it
//! and callers can use it.

ghost use Rattle.std.specs.Prelude.{List};
ghost use Rattle.bv_grammar.specs.declared.words.Terminal.{Terminal};
ghost use Rattle.bv_trees.specs.Trees.{Goal};
ghost use Rattle.bv_trees.specs.Laws.{HasGoals, IsWhole, OneReading};

/// A file is derived whole exactly where it has goals, and these, with all their terms, are one list.
pub fn whole_files_have_one_reading()
    ensures some { (ts : List Terminal) → HasGoals ts }
    ensures whole { (ts : List Terminal) (gs : List Goal) → IsWhole ts gs }
    ensures one { (ts : List Terminal) (gs hs : List Goal) → OneReading ts gs hs }
{}
