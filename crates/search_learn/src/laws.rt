//! Laws of the search machine, each the contract of a function that does nothing: they hold of the definition
//! alone, whichever program runs it.

ghost use Rattle.search_learn.specs.Laws.{RunsEnd, SatIsTrue, TrailsFollow};

/// Each state that the machine reaches has a trail that `learn` takes.
pub fn trails_follow()
    ensures { TrailsFollow }
{}

/// After `Sat` the signs satisfy the clauses.
pub fn sat_is_true()
    ensures { SatIsTrue }
{}

/// A run ends within one step more than its budget.
pub fn runs_end()
    ensures { RunsEnd }
{}
