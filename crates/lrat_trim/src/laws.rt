//! Laws of trimming, each the contract of a function that does nothing: they hold of the definitions alone.

ghost use Rattle.lrat_trim.specs.Derived.{TrimmedCheck, TrimmedReached};

/// Where the lines of a log are numbered and hints name earlier lines alone, going once from the last line to the first
/// finds those that the empty clause reaches, and no other.
pub fn trimmed_reached()
    ensures { TrimmedReached }
{}

/// Where each line of a log follows from the clauses before it by unit propagation along its hints, and the last line,
/// and no other, is the empty clause, the trimmed lines check.
pub fn trimmed_check()
    ensures { TrimmedCheck }
{}
