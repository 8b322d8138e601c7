//! Single steps on the board.

ghost use Rattle.std.specs.Prelude.{◌≡◌, ◌≢◌, ◌+◌, ◌<◌, true, false, OnOk, IfSome, OnSome, IfNone};
ghost use Rattle.goal_board.specs.Words.{word_at, left_there};
ghost use Rattle.goal_board.specs.Views.{stepped, told, claims, leaves, Stays};
ghost use Rattle.goal_board.specs.Plays.{Finds, FindsLeft};
ghost use Rattle.goal_board.specs.Seats.{IsSeatOf, claims_place, left_place};
ghost use Rattle.goal_board.specs.Answers.{word_of, state_of, finish_answer, cancel_answer, claim_answer, open_answer};

use crate::answers::{self, FinishStop, GoalState, Verdict};
use crate::board::{BoardSeat, GoalBoard};
use crate::rule::{Claim, Count, End, Leave, Look};

impl GoalBoard {
    /// What the goal's word says, by one load: Unended exactly where it found 0. A final word is then
    /// seen, and one that the seat had seen is what it finds. One atomic step, sequentially consistent;
    /// it takes no memory.
    pub fn look(&self, seat: &mut BoardSeat, goal: u32) -> GoalState
        requires seat { IsSeatOf self.now seat.old }
        requires goal { goal < self.now.goals }
        ensures seat { IsSeatOf self.now seat.new }
        ensures step { seat.new.view ≡ told seat.old.view goal seat.new.view.found seat.new.view.found }
        ensures finds { Finds seat.old.view goal seat.new.view.found }
        ensures stays { Stays seat.old.view seat.new.view }
        ensures answer { result ≡ state_of seat.new.view.found }
    {
        let word = self
            .table
            .shared
            .load::<Look>(&mut seat.seat, goal as usize);
        answers::state_of(word)
    }

    /// Ends the goal by a verdict, where it has no end yet: exchanges 0 for the final word. Each refusal
    /// comes exactly where the word found is that one, and the word stays. The word written or found is
    /// then seen. One atomic step, sequentially consistent; it takes no memory.
    pub fn finish(
        &self,
        seat: &mut BoardSeat,
        goal: u32,
        verdict: Verdict,
    ) -> Result<(), FinishStop>
        requires seat { IsSeatOf self.now seat.old }
        requires goal { goal < self.now.goals }
        ensures seat { IsSeatOf self.now seat.new }
        ensures step { seat.new.view ≡ told seat.old.view goal seat.new.view.found (left_there seat.new.view.found (word_of verdict)) }
        ensures finds { Finds seat.old.view goal seat.new.view.found }
        ensures stays { Stays seat.old.view seat.new.view }
        ensures answer { result ≡ finish_answer (state_of seat.new.view.found) }
        ensures won { OnOk result (word_at seat.new.view.finals goal ≡ word_of verdict) }
    {
        let word = answers::word_of(verdict);
        let found = self
            .table
            .shared
            .compare_exchange::<End>(&mut seat.seat, goal as usize, 0, word);
        answers::finish_answer(answers::state_of(found))
    }

    /// Cancels the goal, where it has no end yet, since the seat has seen that the goal `by` is false:
    /// exchanges 0 for the final word. It is refused with the state found, which is never Unended, and
    /// the word stays. The word written or found is then seen. One atomic step, sequentially consistent;
    /// it takes no memory.
    pub fn cancel(&self, seat: &mut BoardSeat, goal: u32, by: u32) -> Result<(), GoalState>
        requires seat { IsSeatOf self.now seat.old }
        requires goal { goal < self.now.goals }
        requires other { by ≢ goal }
        requires seen { word_at seat.old.view.finals by ≡ 2 }
        ensures seat { IsSeatOf self.now seat.new }
        ensures step { seat.new.view ≡ told seat.old.view goal seat.new.view.found (left_there seat.new.view.found (5 + by)) }
        ensures finds { Finds seat.old.view goal seat.new.view.found }
        ensures stays { Stays seat.old.view seat.new.view }
        ensures answer { result ≡ cancel_answer (state_of seat.new.view.found) }
        ensures won { OnOk result (word_at seat.new.view.finals goal ≡ 5 + by) }
    {
        let cancelled = 5 + u64::from(by);
        let found = self
            .table
            .shared
            .compare_exchange::<End>(&mut seat.seat, goal as usize, 0, cancelled);
        answers::cancel_answer(answers::state_of(found))
    }

    /// The next session, which the seat then holds: adds 1 to the count of claims. None comes exactly
    /// where the count had reached the number of sessions, and then the seat claims no more. By the rule
    /// of the board no other seat has claimed the same session. One atomic step, sequentially consistent;
    /// it takes no memory.
    pub fn claim_session(&self, seat: &mut BoardSeat) -> Option<u32>
        requires seat { IsSeatOf self.now seat.old }
        requires more { seat.old.view.none ≡ false }
        requires free { seat.old.view.holds ≡ false }
        ensures seat { IsSeatOf self.now seat.new }
        ensures step { seat.new.view ≡ claims seat.old.view (claims_place self.now) seat.new.view.found }
        ensures answer { result ≡ claim_answer self.now.sessions seat.new.view.found }
        ensures below { IfSome result (λ k. k < self.now.sessions) }
        ensures held { OnSome result ((seat.new.view.holds ≡ true) × (seat.new.view.none ≡ false)) }
        ensures none { IfNone result (seat.new.view.none ≡ true) }
    {
        let found = self
            .table
            .shared
            .fetch_add::<Claim>(&mut seat.seat, self.size.goals as usize, 1);
        if found < u64::from(self.size.sessions) {
            seat.session = found as u32;
            Some(found as u32)
        } else {
            None
        }
    }

    /// Leaves the session that the seat holds: its bit joins the set of the sessions left. One atomic
    /// step, sequentially consistent; it takes no memory.
    pub fn leave_session(&self, seat: &mut BoardSeat)
        requires seat { IsSeatOf self.now seat.old }
        requires held { seat.old.view.holds ≡ true }
        ensures seat { IsSeatOf self.now seat.new }
        ensures step { seat.new.view ≡ leaves seat.old.view (left_place self.now) seat.new.view.found }
    {
        let bit = 1u64 << seat.session;
        self.table
            .shared
            .fetch_or::<Leave>(&mut seat.seat, self.size.goals as usize + 1, bit);
    }

    /// How many sessions are not yet left, by one load of the set of those that are, which has each one
    /// that the seat has left. One atomic step, sequentially consistent; it takes no memory.
    pub fn open_sessions(&self, seat: &mut BoardSeat) -> u32
        requires seat { IsSeatOf self.now seat.old }
        ensures seat { IsSeatOf self.now seat.new }
        ensures step { seat.new.view ≡ stepped seat.old.view (left_place self.now) seat.new.view.found }
        ensures finds { FindsLeft seat.old.view seat.new.view.found }
        ensures answer { result ≡ open_answer self.now.sessions seat.new.view.found }
    {
        let found = self
            .table
            .shared
            .load::<Count>(&mut seat.seat, self.size.goals as usize + 1);
        self.size.sessions - found.count_ones()
    }
}
