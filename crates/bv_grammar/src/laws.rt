//! Laws of the grammar. Each stands as the contract of a function that does nothing, so that the prover holds it and
//! callers can use it.

ghost use Rattle.std.specs.Prelude.{ℕ, List};
ghost use Rattle.bv_grammar.specs.declared.words.Terminal.{Terminal};
ghost use Rattle.bv_grammar.specs.declared.words.Role.{Role};
ghost use Rattle.bv_grammar.specs.Grammar.{Symbol};
ghost use Rattle.bv_grammar.specs.Laws.{OneRule, WholeOrFault, NotBoth, OneFault, OneRole};

/// The next terminal tells which rule a symbol is replaced by: the grammar is LL(1).
pub fn one_terminal_tells_the_rule()
    ensures { (s : Symbol) (r r' : List Symbol) → OneRule s r r' }
{}

/// A file is derived whole or has a syntax fault, not both, and the fault has one place.
pub fn whole_or_fault()
    ensures one_of_both { (ts : List Terminal) → WholeOrFault ts }
    ensures not_both { (ts : List Terminal) (at : ℕ) → NotBoth ts at }
    ensures one_fault { (ts : List Terminal) (at at' : ℕ) → OneFault ts at at' }
{}

/// The role in which a terminal is taken, and what is open behind it, are one.
pub fn taken_in_one_way()
    ensures { (ts : List Terminal) (i : ℕ) (r r' : Role) (b b' : List Symbol) → OneRole ts i r b r' b' }
{}
