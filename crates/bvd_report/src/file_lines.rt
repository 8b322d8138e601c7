//! The lines of a file and of all files: goals are numbered through the whole run, so each file hands the next one its first number.
ghost use Rattle.std.specs.Prelude.{◌≡◌, ◌++◌, ◌+◌, ◌<◌, ◌^◌, OnOk, All, length};
ghost use Rattle.bvd_words.specs.Asked.{command_shown};
ghost use Rattle.bvd_report.specs.Report.{goal_lines, goals_of, path_line, file_lines, lines_from, all_goals};
ghost use Rattle.bvd_report.specs.Shown.{lines_shown, found_shown, parts_shown};
ghost use Rattle.bvd_report.specs.Tellable.{IsLine, IsFound, IsPart};

use crate::fault_line::{push_fault, push_file_words};
use crate::goal_line::push_goal;
use crate::told::{Found, Line, Part, goals_of};
use bvd_words::Command;
use std::alloc::AllocError;

/// Adds the lines of goals, numbered from `first` on.
fn push_goals(
    out: &mut Vec<u8>,
    command: Command,
    first: u32,
    goals: &[Line<'_>],
) -> Result<(), AllocError>
    requires few { first + length goals.now < 2 ^ 32 }
    requires tellable { All IsLine goals.now }
    ensures { OnOk result (out.new.items ≡ out.old.items ++ goal_lines (command_shown command) first (lines_shown goals.now)) }
{
    let mut number = first;
    'goals: for line in goals {
        push_goal(out, command, number, line)?;
        number += 1;
    }
    Ok(())
}

/// Adds the line before the goals of a file.
fn push_path(out: &mut Vec<u8>, command: Command, path: &str) -> Result<(), AllocError>
    ensures { OnOk result (out.new.items ≡ out.old.items ++ path_line (command_shown command) path.now) }
{
    match command {
        Command::Cnf | Command::Show => Ok(()),
        Command::Prove | Command::Alone | Command::Schedule | Command::Check => {
            push_file_words(out, path, "\n")
        }
    }
}

/// Adds the lines of a file, its goals numbered from `first` on.
fn push_file(
    out: &mut Vec<u8>,
    command: Command,
    quiet: bool,
    first: u32,
    part: &Part<'_>,
) -> Result<(), AllocError>
    requires few { first + length (goals_of (found_shown part.now.found)) < 2 ^ 32 }
    requires tellable { IsFound part.now.found }
    ensures { OnOk result (out.new.items ≡ out.old.items ++ file_lines (command_shown command) quiet first part.now.path.now (found_shown part.now.found)) }
{
    let path = part.path;
    match &part.found {
        Found::Absent => push_file_words(out, path, ": absent\n"),
        Found::TooLong => push_file_words(out, path, ": too long\n"),
        Found::Faulty(fault) => push_fault(out, path, fault),
        Found::Goals(goals) => {
            if quiet {
                return Ok(());
            }
            push_path(out, command, path)?;
            push_goals(out, command, first, goals)
        }
    }
}

/// Adds the lines of files, whose goals are numbered from 1 on.
pub(crate) fn push_files(
    out: &mut Vec<u8>,
    command: Command,
    quiet: bool,
    parts: &[Part<'_>],
) -> Result<(), AllocError>
    requires few { length (all_goals (parts_shown parts.now)) < 2 ^ 31 }
    requires tellable { All IsPart parts.now }
    ensures { OnOk result (out.new.items ≡ out.old.items ++ lines_from (command_shown command) quiet 1 (parts_shown parts.now)) }
{
    let mut number = 1u32;
    'parts: for part in parts {
        push_file(out, command, quiet, number, part)?;
        number += goals_of(&part.found).len() as u32;
    }
    Ok(())
}
