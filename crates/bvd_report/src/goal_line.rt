//! A goal's line in the report of a command.
ghost use Rattle.std.specs.Prelude.{◌≡◌, ◌++◌, codes, decimal, OnOk};
ghost use Rattle.bvd_words.specs.Asked.{command_shown};
ghost use Rattle.bvd_report.specs.Report.{told_text, clauses_text, numbered_line, goal_line};
ghost use Rattle.bvd_report.specs.Shown.{told_shown, line_shown};
ghost use Rattle.bvd_report.specs.Tellable.{IsLine};

use crate::outcome_line::{
    push_counted, push_numbered_name, push_outcome, push_outcome_words, push_pair,
};
use crate::replay_line::{push_replay, push_replay_words};
use crate::told::{Line, Told};
use bv_print::print_goal;
use bvd_words::Command;
use std::alloc::AllocError;

// Appends what is told of a goal in words.
fn push_told(out: &mut Vec<u8>, line: &Line<'_>) -> Result<(), AllocError>
    requires { IsLine line.now }
    ensures { OnOk result (out.new.items ≡ out.old.items ++ told_text line.now.goal.now.binders (line_shown line.now).certificate (told_shown line.now.told)) }
{
    let certificate = line.certificate.as_str();
    match &line.told {
        Told::Outcome(outcome) => push_outcome_words(out, line.goal, outcome, certificate),
        Told::Replayed(end) => push_replay_words(out, certificate, end),
        Told::AbsentCertificate => push_pair(out, "absent ", certificate),
        Told::Clauses(_) => out.extend_from_slice(b"clauses"),
        Told::Nothing => Ok(()),
    }
}

// Appends the line of a goal that was neither searched for nor had its certificate replayed.
fn push_other(out: &mut Vec<u8>, number: u32, line: &Line<'_>) -> Result<(), AllocError>
    requires { IsLine line.now }
    ensures { OnOk result (out.new.items ≡ out.old.items ++ numbered_line number (line_shown line.now)) }
{
    push_numbered_name(out, number, line.goal)?;
    push_told(out, line)?;
    out.extend_from_slice(b"\n")
}

// Appends the numbered line of a goal.
fn push_numbered(out: &mut Vec<u8>, number: u32, line: &Line<'_>) -> Result<(), AllocError>
    requires { IsLine line.now }
    ensures { OnOk result (out.new.items ≡ out.old.items ++ numbered_line number (line_shown line.now)) }
{
    let certificate = line.certificate.as_str();
    match &line.told {
        Told::Outcome(outcome) => push_outcome(out, number, line.goal, outcome, certificate),
        Told::Replayed(end) => push_replay(out, number, line.goal, certificate, end),
        Told::AbsentCertificate | Told::Clauses(_) | Told::Nothing => {
            push_other(out, number, line)
        }
    }
}

// Appends why a goal has no clauses.
fn push_no_clauses(out: &mut Vec<u8>, line: &Line<'_>) -> Result<(), AllocError>
    requires { IsLine line.now }
    ensures { OnOk result (out.new.items ≡ out.old.items ++ (codes ": " ++ told_text line.now.goal.now.binders (line_shown line.now).certificate (told_shown line.now.told) ++ codes "\n")) }
{
    out.extend_from_slice(b": ")?;
    push_told(out, line)?;
    out.extend_from_slice(b"\n")
}

// Appends what follows a goal's name in `cnf`.
fn push_clauses(out: &mut Vec<u8>, line: &Line<'_>) -> Result<(), AllocError>
    requires { IsLine line.now }
    ensures { OnOk result (out.new.items ≡ out.old.items ++ clauses_text (line_shown line.now) (told_shown line.now.told)) }
{
    match &line.told {
        Told::Clauses(text) => {
            out.extend_from_slice(b"\n")?;
            out.extend_from_slice(text)
        }
        Told::Outcome(_) | Told::Replayed(_) | Told::AbsentCertificate | Told::Nothing => {
            push_no_clauses(out, line)
        }
    }
}

// Appends a goal's comment and its clauses.
fn push_formula(out: &mut Vec<u8>, number: u32, line: &Line<'_>) -> Result<(), AllocError>
    requires { IsLine line.now }
    ensures { OnOk result (out.new.items ≡ out.old.items ++ (codes "c " ++ decimal number ++ codes " " ++ line.now.goal.now.name ++ clauses_text (line_shown line.now) (told_shown line.now.told))) }
{
    push_counted(out, "c ", u128::from(number))?;
    push_pair(out, " ", line.goal.name.as_str())?;
    push_clauses(out, line)
}

/// Appends the line of the goal of a number.
pub(crate) fn push_goal(
    out: &mut Vec<u8>,
    command: Command,
    number: u32,
    line: &Line<'_>,
) -> Result<(), AllocError>
    requires { IsLine line.now }
    ensures { OnOk result (out.new.items ≡ out.old.items ++ goal_line (command_shown command) number (line_shown line.now)) }
{
    match command {
        Command::Cnf => push_formula(out, number, line),
        Command::Show => print_goal(line.goal, out),
        Command::Prove | Command::Alone | Command::Schedule | Command::Check => {
            push_numbered(out, number, line)
        }
    }
}
