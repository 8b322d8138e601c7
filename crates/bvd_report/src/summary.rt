//! The last lines: how many goals hold, fail, or neither, and how many gates are in their cones where gates are counted. A goal holds where it is proved or its certificate is accepted, so one count serves the commands that solve and the one that checks.
ghost use Rattle.std.specs.Prelude.{◌≡◌, ◌++◌, ◌<◌, ◌^◌, OnOk, codes, decimal, length, option_map};
ghost use Rattle.bvd_words.specs.Asked.{command_shown};
ghost use Rattle.bvd_report.specs.Report.{verdict_of, same_verdict, count_of, counts_line, summary, all_goals, gates_line};
ghost use Rattle.bvd_report.specs.Shown.{reply_shown, outcome_shown, told_shown, lines_shown, parts_shown, verdict_shown, gates_shown};

use crate::outcome_line::push_pair;
use crate::told::{Line, Part, Told, goals_of};
use bvd_text::push_number;
use bvd_words::Command;
use goal_reply::{GateCounts, Outcome, Reply};
use std::alloc::AllocError;

/// How a goal is counted.
#[derive(Clone, Copy, Debug, PartialEq, Eq)]
enum Verdict {
    Holds,
    Fails,
    Other,
}

/// How a goal with a reply is counted.
fn reply_verdict(reply: &Reply) -> Verdict
    ensures { verdict_shown result ≡ verdict_of (reply_shown reply.now) }
{
    match reply {
        Reply::Proved(_) => Verdict::Holds,
        Reply::False(_) => Verdict::Fails,
        Reply::Budget(_) | Reply::Deep | Reply::Large | Reply::Memory => Verdict::Other,
    }
}

/// How a goal with an outcome is counted.
fn outcome_verdict(outcome: &Outcome) -> Verdict
    ensures { verdict_shown result ≡ verdict_of (outcome_shown outcome.now) }
{
    match outcome {
        Outcome::Replied(reply) => reply_verdict(reply),
        Outcome::Full | Outcome::Cancelled(_) => Verdict::Other,
    }
}

fn verdict_of(told: &Told) -> Verdict
    ensures { verdict_shown result ≡ verdict_of (told_shown told.now) }
{
    match told {
        Told::Outcome(outcome) => outcome_verdict(outcome),
        Told::Replayed(Ok(())) => Verdict::Holds,
        Told::Replayed(Err(_)) => Verdict::Fails,
        Told::AbsentCertificate | Told::Clauses(_) | Told::Nothing => Verdict::Other,
    }
}

fn is_same(verdict: Verdict, other: Verdict) -> bool
    ensures { result ≡ same_verdict (verdict_shown verdict) (verdict_shown other) }
{
    match (verdict, other) {
        (Verdict::Holds, Verdict::Holds) => true,
        (Verdict::Fails, Verdict::Fails) => true,
        (Verdict::Other, Verdict::Other) => true,
        _ => false,
    }
}

/// How many goals of a file have a verdict.
fn count_in(goals: &[Line<'_>], verdict: Verdict) -> usize
    ensures { result ≡ count_of (verdict_shown verdict) (lines_shown goals.now) }
{
    let mut count = 0usize;
    'goals: for line in goals {
        if is_same(verdict, verdict_of(&line.told)) {
            count += 1;
        }
    }
    count
}

/// How many goals of the run have a verdict.
fn count_all(parts: &[Part<'_>], verdict: Verdict) -> usize
    requires { length (all_goals (parts_shown parts.now)) < 2 ^ 31 }
    ensures { result ≡ count_of (verdict_shown verdict) (all_goals (parts_shown parts.now)) }
{
    let mut count = 0usize;
    'parts: for part in parts {
        count += count_in(goals_of(&part.found), verdict);
    }
    count
}

/// Adds a count and its word.
fn push_count(out: &mut Vec<u8>, count: usize, word: &str) -> Result<(), AllocError>
    ensures { OnOk result (out.new.items ≡ out.old.items ++ (decimal count ++ codes " " ++ word.now ++ codes ", ")) }
{
    push_number(out, count as u128)?;
    push_pair(out, " ", word)?;
    out.extend_from_slice(b", ")
}

/// Adds the counts, with a command's words for goals that hold and that fail.
fn push_counts(
    out: &mut Vec<u8>,
    holds: &str,
    fails: &str,
    parts: &[Part<'_>],
) -> Result<(), AllocError>
    requires { length (all_goals (parts_shown parts.now)) < 2 ^ 31 }
    ensures { OnOk result (out.new.items ≡ out.old.items ++ counts_line holds.now fails.now (all_goals (parts_shown parts.now))) }
{
    out.extend_from_slice(b"goals: ")?;
    push_count(out, count_all(parts, Verdict::Holds), holds)?;
    push_count(out, count_all(parts, Verdict::Fails), fails)?;
    push_number(out, count_all(parts, Verdict::Other) as u128)?;
    out.extend_from_slice(b" other\n")
}

/// Adds the counts of a command's goals.
pub(crate) fn push_summary(
    out: &mut Vec<u8>,
    command: Command,
    parts: &[Part<'_>],
) -> Result<(), AllocError>
    requires { length (all_goals (parts_shown parts.now)) < 2 ^ 31 }
    ensures { OnOk result (out.new.items ≡ out.old.items ++ summary (command_shown command) (all_goals (parts_shown parts.now))) }
{
    match command {
        Command::Prove | Command::Alone | Command::Schedule => {
            push_counts(out, "proved", "false", parts)
        }
        Command::Check => push_counts(out, "accepted", "refused", parts),
        Command::Cnf | Command::Show => Ok(()),
    }
}

/// Adds the line of gates, of a run that counts them.
pub(crate) fn push_gates(out: &mut Vec<u8>, gates: Option<GateCounts>) -> Result<(), AllocError>
    ensures { OnOk result (out.new.items ≡ out.old.items ++ gates_line (option_map gates_shown gates)) }
{
    match gates {
        Some(gates) => {
            out.extend_from_slice(b"gates: ")?;
            push_number(out, u128::from(gates.in_cones))?;
            out.extend_from_slice(b" in cones, ")?;
            push_number(out, u128::from(gates.distinct))?;
            out.extend_from_slice(b" distinct\n")
        }
        None => Ok(()),
    }
}
