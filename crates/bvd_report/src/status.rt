//! The exit status of a run: the greatest that its goals and files ask for.
ghost use Rattle.std.specs.Prelude.{◌≡◌};
ghost use Rattle.bvd_report.specs.Report.{told_status, goals_status, found_status, status_of};
ghost use Rattle.bvd_report.specs.Shown.{outcome_shown, reply_shown, told_shown, lines_shown, found_shown, parts_shown};

use crate::told::{Found, Line, Part, Told};
use goal_reply::{Outcome, Reply};

/// The status that a reply asks for.
fn reply_status(reply: &Reply) -> u8
    ensures { result ≡ told_status (reply_shown reply.now) }
{
    match reply {
        Reply::Proved(_) => 0,
        Reply::False(_) => 1,
        Reply::Budget(_) | Reply::Deep | Reply::Large => 3,
        Reply::Memory => 7,
    }
}

/// The status that an outcome asks for.
fn outcome_status(outcome: &Outcome) -> u8
    ensures { result ≡ told_status (outcome_shown outcome.now) }
{
    match outcome {
        Outcome::Replied(reply) => reply_status(reply),
        Outcome::Cancelled(_) => 3,
        Outcome::Full => 5,
    }
}

/// The status that a goal asks for.
fn told_status(told: &Told) -> u8
    ensures { result ≡ told_status (told_shown told.now) }
{
    match told {
        Told::Outcome(outcome) => outcome_status(outcome),
        Told::Clauses(_) | Told::Nothing => 0,
        Told::Replayed(Ok(())) => 0,
        Told::Replayed(Err(_)) => 1,
        Told::AbsentCertificate => 4,
    }
}

/// The greatest status that goals ask for.
fn goals_status(goals: &[Line<'_>]) -> u8
    ensures { result ≡ goals_status (lines_shown goals.now) }
{
    let mut status = 0u8;
    'goals: for line in goals {
        status = status.max(told_status(&line.told));
    }
    status
}

/// The status that a file asks for.
fn found_status(found: &Found<'_>) -> u8
    ensures { result ≡ found_status (found_shown found.now) }
{
    match found {
        Found::Absent | Found::TooLong | Found::Faulty(_) => 4,
        Found::Goals(goals) => goals_status(goals),
    }
}

/// The status of a run, the greatest that its files ask for; 0 where there is none.
///
/// | Status | What asks for it |
/// |---|---|
/// | 0 | a goal that is proved, shown, whose clauses are written, or whose certificate is accepted |
/// | 1 | a goal that is false, or whose certificate is refused |
/// | 3 | a goal whose steps are spent, that is too deep or too large, or that is cancelled |
/// | 4 | a file that is absent, too long or no theorem file, or a certificate that is absent |
/// | 5 | a goal for whose gates a shared table had no room |
/// | 7 | a goal for which there was no memory |
///
/// Cost: linear in the number of goals.
pub fn status_of(parts: &[Part<'_>]) -> u8
    ensures { result ≡ status_of (parts_shown parts.now) }
{
    let mut status = 0u8;
    'parts: for part in parts {
        status = status.max(found_status(&part.found));
    }
    status
}
