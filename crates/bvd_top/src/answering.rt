//! The answers of a run, in order of goals, where the goals have nothing to do with one another. Each goal is numbered by
//! its place in the run.
ghost use Rattle.std.specs.Prelude.{◌≡◌, ◌≢◌, ◌≤◌, ◌<◌, ◌^◌, ◌+◌, All, map, length, IfOk};
ghost use Rattle.bvd_host.specs.Causes.{Rose, HasCause};
ghost use Rattle.bv_expr.specs.Statement.{statement_of};
ghost use Rattle.bvd_words.specs.Asked.{command_shown, request_shown};
ghost use Rattle.bvd_words.specs.Requests.{Schedule};
ghost use Rattle.bvd_report.specs.Report.{all_goals, goals_of};
ghost use Rattle.bvd_report.specs.Shown.{told_shown, line_shown, lines_shown, found_shown, part_shown, parts_shown};
ghost use Rattle.bvd_top.specs.Stated.{IsSmall};
ghost use Rattle.bvd_top.specs.Told.{IsTold, IsLineOf, AreTold};
ghost use Rattle.bvd_top.specs.Parts.{IsFound, AreFound};
ghost use Rattle.bvd_top.specs.Shown.{stated_shown, files_shown};
ghost use Rattle.bvd_top.specs.Parsed.{IsOfFile};
ghost use Rattle.bvd_report.specs.Tellable.{IsTellable, IsLine, IsFound as IsFoundTellable, IsPart};

use crate::checking::told_check;
use crate::clauses::told_clauses;
use crate::keeping::keep;
use crate::naming::certificate_name;
use crate::parsing::{File, Stated};
use crate::solving::told_answer;
use crate::stop::Stop;
use bv_expr::Goal;
use bvd_host::Keeper;
use bvd_report::{Found, Line, Part, Told, goals_of};
use bvd_words::{Command, Request};
use std::alloc::Global;

/// What a command tells of a goal whose certificate has this name.
fn told_of<K: Keeper>(
    alloc: Global,
    keeper: &mut K,
    request: &Request<'_>,
    name: &str,
    goal: &Goal,
) -> Result<Told, Stop>
    requires apart { command_shown request.now.command ≢ Schedule }
    requires budget { request.now.steps ≤ 1000000000 }
    ensures told { IfOk result (λ told. IsTold (command_shown request.now.command) request.now.steps (K.files keeper.old) (Rose (K.missing keeper.old) (K.missing keeper.new)) name.now (statement_of goal.now) (told_shown told)) }
    ensures files { K.files keeper.new ≡ K.files keeper.old }
    ensures missing { K.missing keeper.old ≤ K.missing keeper.new }
    ensures cause { HasCause Stop.Device (K.faults keeper.old) (K.faults keeper.new) result }
{
    match request.command {
        Command::Prove | Command::Alone => Ok(told_answer(alloc, goal, request.steps)),
        Command::Check => told_check(alloc, keeper, name, goal),
        Command::Cnf => Ok(told_clauses(alloc, goal)?),
        Command::Show => Ok(Told::Nothing),
        Command::Schedule => unreachable!(),
    }
}

/// The line of a goal.
fn line_of<'a, K: Keeper>(
    alloc: Global,
    keeper: &mut K,
    request: &Request<'_>,
    number: usize,
    goal: &'a Goal,
) -> Result<Line<'a>, Stop>
    requires apart { command_shown request.now.command ≢ Schedule }
    requires budget { request.now.steps ≤ 1000000000 }
    ensures tellable { IfOk result IsLine }
    ensures line { IfOk result (λ line. IsLineOf (request_shown request.now) (K.files keeper.old) (Rose (K.missing keeper.old) (K.missing keeper.new)) number (statement_of goal.now) (line_shown line)) }
    ensures files { K.files keeper.new ≡ K.files keeper.old }
    ensures missing { K.missing keeper.old ≤ K.missing keeper.new }
    ensures cause { HasCause Stop.Device (K.faults keeper.old) (K.faults keeper.new) result }
{
    let certificate = certificate_name(alloc, request.command, number, goal)?;
    let told = told_of(alloc, keeper, request, certificate.as_str(), goal)?;
    Ok(Line {
        goal,
        certificate,
        told,
    })
}

/// The lines of goals, numbered from `first` on.
fn answer_goals<'a, K: Keeper>(
    alloc: Global,
    keeper: &mut K,
    request: &Request<'_>,
    first: usize,
    goals: &'a [Goal],
) -> Result<Vec<Line<'a>>, Stop>
    requires apart { command_shown request.now.command ≢ Schedule }
    requires budget { request.now.steps ≤ 1000000000 }
    requires few { first + length goals.now < 2 ^ 64 }
    ensures tellable { IfOk result (λ lines. All IsLine lines.items) }
    ensures told { IfOk result (λ lines. AreTold (request_shown request.now) (K.files keeper.old) (Rose (K.missing keeper.old) (K.missing keeper.new)) first (map statement_of goals.now) (lines_shown lines.items)) }
    ensures files { K.files keeper.new ≡ K.files keeper.old }
    ensures missing { K.missing keeper.old ≤ K.missing keeper.new }
    ensures cause { HasCause Stop.Device (K.faults keeper.old) (K.faults keeper.new) result }
{
    let mut lines = Vec::new(alloc);
    let mut number = first;
    'goals: for goal in goals {
        let line = line_of(alloc, keeper, request, number, goal)?;
        keep(&mut lines, line)?;
        number += 1;
    }
    Ok(lines)
}

/// What became of a file that states this, its goals being numbered from `first` on.
fn found_of<'a, K: Keeper>(
    alloc: Global,
    keeper: &mut K,
    request: &Request<'_>,
    first: usize,
    stated: &'a Stated,
) -> Result<Found<'a>, Stop>
    requires apart { command_shown request.now.command ≢ Schedule }
    requires budget { request.now.steps ≤ 1000000000 }
    requires small { IsSmall (stated_shown stated.now) }
    requires of_file { IsOfFile stated.now }
    requires few { first ≤ 2 ^ 63 }
    ensures tellable { IfOk result IsFoundTellable }
    ensures found { IfOk result (λ found. IsFound (request_shown request.now) (K.files keeper.old) (Rose (K.missing keeper.old) (K.missing keeper.new)) first (stated_shown stated.now) (found_shown found)) }
    ensures files { K.files keeper.new ≡ K.files keeper.old }
    ensures missing { K.missing keeper.old ≤ K.missing keeper.new }
    ensures cause { HasCause Stop.Device (K.faults keeper.old) (K.faults keeper.new) result }
{
    match stated {
        Stated::Absent => Ok(Found::Absent),
        Stated::TooLong => Ok(Found::TooLong),
        Stated::Faulty(fault) => Ok(Found::Faulty(*fault)),
        Stated::Goals(goals) => Ok(Found::Goals(answer_goals(
            alloc, keeper, request, first, goals,
        )?)),
    }
}

/// What became of each file, once its goals are answered.
/// Errors: the keeper failed, or want of memory.
pub fn answer_all<'a, 'b, K: Keeper>(
    alloc: Global,
    keeper: &mut K,
    request: &Request<'_>,
    files: &'a [File<'b>],
) -> Result<Vec<Part<'a>>, Stop>
    requires apart { command_shown request.now.command ≢ Schedule }
    requires budget { request.now.steps ≤ 1000000000 }
    requires small { All (λ f. IsSmall (stated_shown f.stated)) files.now }
    requires of_file { All (λ f. IsOfFile f.stated) files.now }
    requires few { length files.now ≤ 64 }
    ensures tellable { IfOk result (λ parts. All IsPart parts.items) }
    ensures found { IfOk result (λ parts. AreFound (request_shown request.now) (K.files keeper.old) (Rose (K.missing keeper.old) (K.missing keeper.new)) 1 (files_shown files.now) (parts_shown parts.items)) }
    ensures few { IfOk result (λ parts. length (all_goals (parts_shown parts.items)) ≤ 65536) }
    ensures files { K.files keeper.new ≡ K.files keeper.old }
    ensures missing { K.missing keeper.old ≤ K.missing keeper.new }
    ensures cause { HasCause Stop.Device (K.faults keeper.old) (K.faults keeper.new) result }
{
    let mut parts = Vec::new(alloc);
    let mut number = 1usize;
    'files: for file in files {
        let found = found_of(alloc, keeper, request, number, &file.stated)?;
        number += goals_of(&found).len();
        let path = file.path;
        keep(&mut parts, Part { path, found })?;
    }
    Ok(parts)
}
