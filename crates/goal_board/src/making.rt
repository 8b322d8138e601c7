//! A board and its seats are made.

ghost use Rattle.std.specs.Prelude.{◌≡◌, ◌+◌, ◌≤◌, ◌<◌, IfOk, All, vec_len};
ghost use Rattle.goal_board.specs.Views.{kept_part};
ghost use Rattle.goal_board.specs.Seats.{IsNewSeat};

use crate::board::{BoardSeat, GoalBoard};
use crate::rule::Cut;
use crate::view::Size;
use atomic_table::Table;
use std::alloc::{AllocError, Global};

impl GoalBoard {
    /// A new seat with the last number of the range.
    fn split(&self, seat: &mut BoardSeat) -> BoardSeat
        requires seat { IsNewSeat self.now seat.old }
        requires wide { seat.old.view.low + 1 < seat.old.view.high }
        ensures new { IsNewSeat self.now result }
        ensures board { seat.new.board ≡ seat.old.board }
        ensures kept { seat.new.view ≡ kept_part seat.old.view }
    {
        let other = self.table.shared.split_seat::<Cut>(&mut seat.seat);
        BoardSeat {
            seat: other,
            session: 0,
        }
    }

    /// The range of the first seat is cut until each seat has one number.
    fn seats(
        &self,
        alloc: Global,
        first: BoardSeat,
        workers: u32,
    ) -> Result<Vec<BoardSeat>, AllocError>
        requires seat { IsNewSeat self.now first }
        requires range { (first.view.low ≡ 0) × (first.view.high ≡ workers + 1) × (workers ≤ 16) }
        ensures count { IfOk result (λ r. vec_len r ≡ workers + 1) }
        ensures seats { IfOk result (λ r. All (IsNewSeat self.now) r.items) }
    {
        let mut first = first;
        let mut seats = Vec::with_capacity(alloc, workers as usize + 1)?;
        for _ in 0..workers {
            let other = self.split(&mut first);
            seats.push(other)?;
        }
        seats.push(first)?;
        Ok(seats)
    }

    /// A board on which no goal has an end and no session is claimed, and a seat for each worker and one
    /// more. O(goals) in time and memory, 8 bytes a goal; the only call of the board that takes memory,
    /// and refused only for want of it.
    pub fn new(
        alloc: Global,
        goals: u32,
        sessions: u32,
        workers: u32,
    ) -> Result<(GoalBoard, Vec<BoardSeat>), AllocError>
        requires goals { goals ≤ 65536 }
        requires sessions { sessions ≤ 64 }
        requires workers { (1 ≤ workers) × (workers ≤ 16) }
        ensures board { IfOk result (λ r. (r.0.goals ≡ goals) × (r.0.sessions ≡ sessions)) }
        ensures count { IfOk result (λ r. vec_len r.1 ≡ workers + 1) }
        ensures seats { IfOk result (λ r. All (IsNewSeat r.0) r.1.items) }
    {
        let size = Size {
            goals,
            sessions,
            workers,
        };
        let words = Vec::from_elem(alloc, 0u64, goals as usize + 2)?;
        let (table, seat) = Table::of_words(alloc, words.as_slice(), &size)?;
        let board = GoalBoard { table, size };
        let seats = board.seats(alloc, BoardSeat { seat, session: 0 }, workers)?;
        Ok((board, seats))
    }
}
