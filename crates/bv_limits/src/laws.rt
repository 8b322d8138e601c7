//! The law of the pieces of a file's goals.

ghost use Rattle.std.specs.Prelude.{List};
ghost use Rattle.bv_trees.specs.Trees.{Goal};
ghost use Rattle.bv_trees.specs.Codes.{goal_pieces};
ghost use Rattle.bv_trees.specs.Complete.{Holds};
ghost use Rattle.bv_limits.specs.Deep.{terms_of};

/// The pieces of a file's goals hold the terms of the goals, so that the first deep one of them is told.
pub fn pieces_hold_terms()
    ensures { (gs : List Goal) → Holds (goal_pieces gs) (terms_of gs) }
{}
