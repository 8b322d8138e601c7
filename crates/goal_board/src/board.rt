//! The board and its seats.

use crate::rule::BoardRule;
use crate::view::{BoardView, Size};
use atomic_table::{Seat, Table};
use std::alloc::Global;
use std::marker::Model;

/// A board of up to 65,536 goals and 64 sessions, which threads share by `&`: a word of 8 bytes for each
/// goal, the count of claims and the set of the sessions that were left. Its calls take no lock and never
/// wait.
#[derive(Drop)]
pub struct GoalBoard {
    pub(crate) table: Table<(), BoardView, Size, BoardRule, Global>,
    pub(crate) size: Size,
}

impl Model for GoalBoard {
    ghost use Rattle.std.specs.Prelude.{◌≡◌, ◌+◌, ◌≤◌};
    ghost use Rattle.goal_board.specs.Seats.{BoardState};

    ghost Value = { BoardState };

    ghost view = { λ b. record { id = b.table.shared.table_id; goals = b.size.goals; sessions = b.size.sessions } };

    ghost invariant = { λ b. (b.table.shared.key ≡ b.size) × (b.table.shared.table_id.words ≡ b.size.goals + 2) ×
        (b.size.goals ≤ 65536) × (b.size.sessions ≤ 64) };
}

/// What one thread knows of a board, and the session that it holds. A seat is of one thread at a time.
#[derive(Drop)]
pub struct BoardSeat {
    pub(crate) seat: Seat<(), BoardView>,
    pub(crate) session: u32,
}

impl Model for BoardSeat {
    ghost use Rattle.std.specs.Prelude.{◌≡◌, []};
    ghost use Rattle.goal_board.specs.Seats.{SeatState, Holds};

    ghost Value = { SeatState };

    ghost view = { λ s. record { board = s.seat.table_id; view = s.seat.me.0 } };

    ghost invariant = { λ s. Holds s.seat.me.0 s.session × (s.seat.me.1 ≡ []) };
}
