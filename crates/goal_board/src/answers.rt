//! Goal words as answers.

ghost use Rattle.std.specs.Prelude.{◌≡◌, ◌≤◌};
ghost use Rattle.goal_board.specs.Answers.{word_of, verdict_of, state_of, finish_answer, cancel_answer};

/// How a goal ended by itself.
#[derive(Clone, Copy, Debug, Drop, PartialEq, Eq)]
pub enum Verdict {
    /// No values falsify it.
    Proved,
    /// Some values falsify it.
    False,
    /// Its steps ran out.
    Budget,
    /// It is deep, large or out of memory.
    Stopped,
}

/// What a goal's word says.
#[derive(Clone, Copy, Debug, Drop, PartialEq, Eq)]
pub enum GoalState {
    /// It has no end yet.
    Unended,
    /// It ended by itself.
    Ended(Verdict),
    /// It was cancelled, since the goal of this number is false.
    Cancelled(u32),
}

/// Why a goal isn't finished: it has an end already.
#[derive(Clone, Copy, Debug, Drop, PartialEq, Eq)]
pub enum FinishStop {
    /// It was cancelled, since the goal of this number is false.
    Cancelled(u32),
    /// It ended by itself.
    Ended(Verdict),
}

/// The final word of a goal that ends by itself.
pub(crate) fn word_of(verdict: Verdict) -> u64
    ensures { result ≡ word_of verdict }
{
    match verdict {
        Verdict::Proved => 1,
        Verdict::False => 2,
        Verdict::Budget => 3,
        Verdict::Stopped => 4,
    }
}

/// The verdict of a word from 1 to 4.
fn verdict_of(word: u64) -> Verdict
    ensures { result ≡ verdict_of word }
{
    match word {
        1 => Verdict::Proved,
        2 => Verdict::False,
        3 => Verdict::Budget,
        _ => Verdict::Stopped,
    }
}

/// What a goal's word says.
pub(crate) fn state_of(word: u64) -> GoalState
    requires { word ≤ 65540 }
    ensures { result ≡ state_of word }
{
    if word == 0 {
        GoalState::Unended
    } else if word < 5 {
        GoalState::Ended(verdict_of(word))
    } else {
        GoalState::Cancelled((word - 5) as u32)
    }
}

/// What `finish` answers where it found this state.
pub(crate) fn finish_answer(state: GoalState) -> Result<(), FinishStop>
    ensures { result ≡ finish_answer state }
{
    match state {
        GoalState::Unended => Ok(()),
        GoalState::Ended(verdict) => Err(FinishStop::Ended(verdict)),
        GoalState::Cancelled(by) => Err(FinishStop::Cancelled(by)),
    }
}

/// What `cancel` answers where it found this state.
pub(crate) fn cancel_answer(state: GoalState) -> Result<(), GoalState>
    ensures { result ≡ cancel_answer state }
{
    match state {
        GoalState::Unended => Ok(()),
        GoalState::Ended(verdict) => Err(GoalState::Ended(verdict)),
        GoalState::Cancelled(by) => Err(GoalState::Cancelled(by)),
    }
}
