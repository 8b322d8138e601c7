//! The rule of the board, and what each kind of step tells the seat that takes it.

use crate::view::{BoardView, Size};
use atomic_table::{Play, Split, TableRule};

/// Words are final once they aren't 0, and the turnstile has what the seats have claimed.
pub(crate) struct BoardRule;

impl TableRule<(), BoardView, Size> for BoardRule {
    ghost use Rattle.goal_board.specs.Plays.{IsTable, first_view};

    ghost holds = { IsTable };

    ghost first = { first_view };
}

/// A load of a goal's word, which is seen where it is final.
pub(crate) struct Look;

impl Play<(), BoardView> for Look {
    ghost use Rattle.goal_board.specs.Plays.{Looks};

    ghost then = { Looks };
}

/// An exchange of 0 for a goal's final word: the word written or found is seen.
pub(crate) struct End;

impl Play<(), BoardView> for End {
    ghost use Rattle.goal_board.specs.Plays.{Ends};

    ghost then = { Ends };
}

/// One more claim: the number found is the session's, where there are so many.
pub(crate) struct Claim;

impl Play<(), BoardView> for Claim {
    ghost use Rattle.goal_board.specs.Plays.{Claims};

    ghost then = { Claims };
}

/// One more session in the set of those that were left.
pub(crate) struct Leave;

impl Play<(), BoardView> for Leave {
    ghost use Rattle.goal_board.specs.Plays.{Leaves};

    ghost then = { Leaves };
}

/// A load of the set of the sessions that were left.
pub(crate) struct Count;

impl Play<(), BoardView> for Count {
    ghost use Rattle.goal_board.specs.Plays.{Counts};

    ghost then = { Counts };
}

/// The seat keeps all of its numbers but the last one, which is the new seat's.
pub(crate) struct Cut;

impl Split<BoardView> for Cut {
    ghost use Rattle.goal_board.specs.Views.{kept_part, cut_part};

    ghost left = { kept_part };

    ghost right = { cut_part };
}
