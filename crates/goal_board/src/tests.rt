//! A goal that is false cancels another, a session is claimed and left, and two threads end one goal.

ghost use Rattle.std.specs.Prelude.{◌<◌};
ghost use Rattle.goal_board.specs.Seats.{IsSeatOf};

use crate::{BoardSeat, FinishStop, GoalBoard, GoalState, Verdict};
use std::alloc::AllocError;
use std::thread;

/// The first end of a goal stays, and each call tells what it found.
#[test]
fn first_end_stays(rt: HostRuntime) -> Result<(), AllocError> {
    let (board, mut seats) = GoalBoard::new(rt.alloc(), 2, 1, 1)?;
    let seat = &mut seats[0];
    assert_eq!(rt; board.look(seat, 0), GoalState::Unended);
    assert!(rt; board.finish(seat, 0, Verdict::False).is_ok());
    assert!(rt; board.cancel(seat, 1, 0).is_ok());
    assert_eq!(rt;
        board.finish(seat, 1, Verdict::Proved),
        Err(FinishStop::Cancelled(0))
    );
    assert_eq!(rt; board.cancel(seat, 1, 0), Err(GoalState::Cancelled(0)));
    assert_eq!(rt;
        board.finish(seat, 0, Verdict::Budget),
        Err(FinishStop::Ended(Verdict::False))
    );
    assert_eq!(rt; board.look(seat, 0), GoalState::Ended(Verdict::False));
    assert_eq!(rt; board.look(seat, 1), GoalState::Cancelled(0));
    Ok(())
}

/// The one session is claimed and left, and there is none after it.
#[test]
fn one_session(rt: HostRuntime) -> Result<(), AllocError> {
    let (board, mut seats) = GoalBoard::new(rt.alloc(), 2, 1, 1)?;
    let seat = &mut seats[0];
    assert_eq!(rt; board.open_sessions(seat), 1);
    let first = board.claim_session(seat);
    assert_eq!(rt; first, Some(0));
    if first.is_some() {
        board.leave_session(seat);
        assert_eq!(rt; board.open_sessions(seat), 0);
        assert_eq!(rt; board.claim_session(seat), None);
    }
    Ok(())
}

/// Whether goal 0 gets this end.
fn ends(board: &GoalBoard, mut seat: BoardSeat, verdict: Verdict) -> bool
    requires seat { IsSeatOf board.now seat }
    requires goal { 0 < board.now.goals }
{
    board.finish(&mut seat, 0, verdict).is_ok()
}

/// Of two threads that end one goal, one gets its end.
#[test]
fn one_of_two(rt: HostRuntime) -> Result<(), AllocError> {
    let (board, mut seats) = GoalBoard::new(rt.alloc(), 1, 0, 1)?;
    if let (Some(one), Some(two)) = (seats.pop(), seats.pop()) {
        let shared = &board;
        let (first, second) = thread::join(
            &rt,
            move || ends(shared, one, Verdict::Proved),
            move || ends(shared, two, Verdict::Budget),
        );
        assert!(rt; first != second);
    }
    Ok(())
}
