//! Laws of canonical text. Each stands as the contract of a function that does nothing, so that the prover holds it and
//! callers can use it.

ghost use Rattle.std.specs.Prelude.{ℕ, List};
ghost use Rattle.bv_lex.specs.declared.token.Token.{Token};
ghost use Rattle.bv_trees.specs.Trees.{Goal};
ghost use Rattle.bv_typing.specs.Source.{Source};
ghost use Rattle.bv_expr.specs.Goal.{Binders};
ghost use Rattle.bv_expr.specs.Statement.{Statement};
ghost use Rattle.bv_expr.specs.Term.{Term};
ghost use Rattle.bv_canon.specs.Laws.{GoalIsReadBack, LineIsRead, LineStatesGoal, PrintedGoalReads, StatesOfSyntax, TermIsRead};

/// The tokens of a term's canonical text are derived as one atom, which is typed, and is that term again.
pub fn terms_are_read_back()
    ensures { (binders : Binders) (t : Term) → TermIsRead binders t }
{}

/// A file whose tokens are those of a goal's canonical line is that goal alone: its goals are derived as one, which is typed
/// and states that goal again.
pub fn lines_are_read_back()
    ensures { (goal : Statement) → LineIsRead goal }
{}

/// The canonical text of a goal, with its line feed, is cut into tokens that are that goal alone, and it is read in no other
/// way: a printed goal read from a file is the goal that was printed.
pub fn goals_are_read_back()
    ensures some { (goal : Statement) → GoalIsReadBack goal }
    ensures one { (goal : Statement) (tokens : List Token) (trees : List Goal) → LineStatesGoal goal tokens trees }
{}

/// Where a file's tokens are derived as goals, and these have no fault of their types, each goal that the file states is one
/// that the syntax can spell: it is a goal, its terms are expressions, and its names, numbers and file can be written.
pub fn files_state_goals_of_the_syntax()
    ensures { (s : Source) (trees : List Goal) → StatesOfSyntax s trees }
{}

/// A goal that was read from a file and is printed reads back: where bytes read as goals, and the canonical line of one of them
/// meets no limit, however it is cut and derived, the line reads as that goal alone.
pub fn printed_goals_read_back()
    ensures { (bytes : List ℕ) (goals : List Statement) (goal : Statement) → PrintedGoalReads bytes goals goal }
{
    goals_are_read_back();
    files_state_goals_of_the_syntax();
}
