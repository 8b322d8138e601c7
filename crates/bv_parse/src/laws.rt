//! A law of files, their goals and their faults. It stands as the contract of a function that does nothing, so that the prover holds it and
//! callers can use it.

ghost use Rattle.std.specs.Prelude.{ℕ, List};
ghost use Rattle.bv_lex.specs.declared.fault.Fault.{Fault};
ghost use Rattle.bv_expr.specs.Statement.{Statement};
ghost use Rattle.bv_parse.specs.Laws.{NotBoth, OneFault, OneReading};

use bv_grammar::whole_or_fault;
use bv_lex::one_cut;
use bv_trees::whole_files_have_one_reading;

/// A file reads as one list of goals at most, it has one fault at most, and one that reads as goals has none.
pub fn one_answer()
    ensures fault { (bytes : List ℕ) (f g : Fault) → OneFault bytes f g }
    ensures reading { (bytes : List ℕ) (goals others : List Statement) → OneReading bytes goals others }
    ensures not_both { (bytes : List ℕ) (goals : List Statement) (f : Fault) → NotBoth bytes goals f }
{
    one_cut();
    whole_or_fault();
    whole_files_have_one_reading();
}
