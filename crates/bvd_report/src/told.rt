//! What a report is made from: what is told of each goal, and what became of each file. One type serves all commands, since a line's words depend on what is told alone; which of them a command tells is settled where it is carried out. Goals are lent, so that no term is dropped here.
ghost use Rattle.std.specs.Prelude.{◌≡◌};
ghost use Rattle.bvd_report.specs.Report.{goals_of};
ghost use Rattle.bvd_report.specs.Shown.{lines_shown, found_shown};

use bv_expr::Goal;
use bv_lex::Fault;
use goal_reply::Outcome;
use lrat_replay::ReplayStop;

/// What is told of a goal.
#[derive(Drop)]
pub enum Told {
    /// What became of it in a search.
    Outcome(Outcome),
    /// How the replay of its certificate ended.
    Replayed(Result<(), ReplayStop>),
    /// Its certificate isn't there.
    AbsentCertificate,
    /// Its clauses, as text.
    Clauses(Vec<u8>),
    /// Nothing but what it states.
    Nothing,
}

/// A goal with the name of its certificate and what is told of it.
#[derive(Drop)]
pub struct Line<'a> {
    pub goal: &'a Goal,
    pub certificate: String,
    pub told: Told,
}

/// What became of a file.
#[derive(Drop)]
pub enum Found<'a> {
    /// It isn't there.
    Absent,
    /// It has more bytes than are read.
    TooLong,
    /// It is no theorem file.
    Faulty(Fault),
    /// Its goals, in order.
    Goals(Vec<Line<'a>>),
}

/// A file of the run: its name as the words have it, and what became of it.
#[derive(Drop)]
pub struct Part<'a> {
    pub path: &'a str,
    pub found: Found<'a>,
}

/// The goals of a file, each with what is told of it; none where it has no goals that are read. Takes constant time.
pub fn goals_of<'a, 'b>(found: &'b Found<'a>) -> &'b [Line<'a>]
    ensures { lines_shown result.now ≡ goals_of (found_shown found.now) }
{
    match found {
        Found::Goals(lines) => lines,
        Found::Absent | Found::TooLong | Found::Faulty(_) => &[],
    }
}
