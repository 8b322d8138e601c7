//! What `schedule` tells: the goals of all files share one table, and a generator draws their events. Each goal is numbered
//! by its place in the run.
ghost use Rattle.std.specs.Prelude.{◌≡◌, ◌≤◌, ◌<◌, ◌+◌, ◌^◌, ◌++◌, ℕ, All, Option, length, map, drop, IfOk, OnOk, Some};
ghost use Rattle.std.specs.Vec.Iter.{into_iter_items};
ghost use Rattle.bvd_host.specs.Files.{Files};
ghost use Rattle.bvd_host.specs.Causes.{Rose};
ghost use Rattle.bvd_words.specs.Requests.{Schedule};
ghost use Rattle.bvd_words.specs.Asked.{command_shown, request_shown};
ghost use Rattle.bvd_report.specs.Report.{all_goals};
ghost use Rattle.bvd_report.specs.Shown.{found_shown, gates_shown, lines_shown, parts_shown};
ghost use Rattle.bvd_report.specs.Tellable.{IsPart};
ghost use Rattle.bvd_top.specs.Stated.{IsSmall};
ghost use Rattle.bvd_top.specs.Shown.{stated_shown, files_shown};
ghost use Rattle.bvd_top.specs.Parsed.{IsOfFile};
ghost use Rattle.bvd_top.specs.Listed.{goals_held, all_held, lines_by, found_by, parts_by};
ghost use Rattle.bvd_top.specs.Parts.{AreAnswered};
ghost use Rattle.bvd_top.specs.Scheduled.{gates_of};

use crate::keeping::keep;
use crate::naming::certificate_name;
use crate::parsing::{File, Stated};
use bv_expr::Goal;
use bvd_report::{Found, Line, Part, Told};
use bvd_words::{Command, Request};
use gate_world::schedule;
use goal_reply::{GateCounts, Outcome};
use std::alloc::{AllocError, Global};
use std::vec::IntoIter;

/// The goals that a file states.
fn goals_stated(stated: &Stated) -> &[Goal]
    ensures { result.now ≡ goals_held stated.now }
{
    match stated {
        Stated::Goals(goals) => goals,
        Stated::Absent | Stated::TooLong | Stated::Faulty(_) => &[],
    }
}

/// Lends goals behind others.
fn push_goals<'a>(goals: &mut Vec<&'a Goal>, more: &'a [Goal]) -> Result<(), AllocError>
    ensures { OnOk result (map (λ g. g.now) goals.new.items ≡ map (λ g. g.now) goals.old.items ++ more.now) }
{
    'more: for goal in more {
        keep(goals, goal)?;
    }
    Ok(())
}

/// The goals that files state, in order.
fn goals_in<'a>(alloc: Global, files: &'a [File<'_>]) -> Result<Vec<&'a Goal>, AllocError>
    ensures { IfOk result (λ goals. map (λ g. g.now) goals.items ≡ all_held files.now) }
{
    let mut goals = Vec::new(alloc);
    'files: for file in files {
        push_goals(&mut goals, goals_stated(&file.stated))?;
    }
    Ok(goals)
}

/// The lines of a file's goals, numbered from `first` on, of which these outcomes are next.
fn lines_of<'a>(
    alloc: Global,
    first: usize,
    goals: &'a [Goal],
    outcomes: &mut IntoIter<Outcome>,
) -> Result<Vec<Line<'a>>, AllocError>
    requires few { first + length goals.now < 2 ^ 64 }
    requires enough { length goals.now ≤ length (into_iter_items outcomes.old) }
    ensures lines { IfOk result (λ lines. lines_shown lines.items ≡ lines_by first goals.now (into_iter_items outcomes.old)) }
    ensures rest { IfOk result (λ lines. into_iter_items outcomes.new ≡ drop (length goals.now) (into_iter_items outcomes.old)) }
{
    let mut lines = Vec::new(alloc);
    let mut number = first;
    'goals: for goal in goals {
        let certificate = certificate_name(alloc, Command::Schedule, number, goal)?;
        let Some(outcome) = outcomes.next() else {
            unreachable!()
        };
        let told = Told::Outcome(outcome);
        keep(
            &mut lines,
            Line {
                goal,
                certificate,
                told,
            },
        )?;
        number += 1;
    }
    Ok(lines)
}

/// What became of a file that states this, its goals being numbered from `first` on.
fn found_of<'a>(
    alloc: Global,
    first: usize,
    stated: &'a Stated,
    outcomes: &mut IntoIter<Outcome>,
) -> Result<Found<'a>, AllocError>
    requires few { first + length (goals_held stated.now) < 2 ^ 64 }
    requires enough { length (goals_held stated.now) ≤ length (into_iter_items outcomes.old) }
    ensures found { IfOk result (λ found. found_shown found ≡ found_by first stated.now (into_iter_items outcomes.old)) }
    ensures rest { IfOk result (λ found. into_iter_items outcomes.new ≡ drop (length (goals_held stated.now)) (into_iter_items outcomes.old)) }
{
    match stated {
        Stated::Absent => Ok(Found::Absent),
        Stated::TooLong => Ok(Found::TooLong),
        Stated::Faulty(fault) => Ok(Found::Faulty(*fault)),
        Stated::Goals(goals) => Ok(Found::Goals(lines_of(alloc, first, goals, outcomes)?)),
    }
}

/// What became of each file, by the outcomes of the goals of all files in order.
fn parts_of<'a>(
    alloc: Global,
    files: &'a [File<'_>],
    outcomes: Vec<Outcome>,
) -> Result<Vec<Part<'a>>, AllocError>
    requires few { length (all_held files.now) ≤ 65536 }
    requires count { length outcomes.items ≡ length (all_held files.now) }
    ensures { IfOk result (λ parts. parts_shown parts.items ≡ parts_by 1 files.now outcomes.items) }
{
    let mut outcomes = outcomes.into_iter();
    let mut parts = Vec::new(alloc);
    let mut number = 1usize;
    'files: for file in files {
        let found = found_of(alloc, number, &file.stated, &mut outcomes)?;
        number += goals_stated(&file.stated).len();
        let path = file.path;
        keep(&mut parts, Part { path, found })?;
    }
    Ok(parts)
}

/// What became of each file, once the events of its goals are drawn, and the gates of those that were searched to an end.
/// Errors: want of memory alone.
pub fn schedule_all<'a, 'b>(
    alloc: Global,
    request: &Request<'_>,
    files: &'a [File<'b>],
) -> Result<(Vec<Part<'a>>, GateCounts), AllocError>
    requires schedules { command_shown request.now.command ≡ Schedule }
    requires budget { request.now.steps ≤ 1000000000 }
    requires table { (1 ≤ request.now.table) × (request.now.table ≤ 4000000) }
    requires small { All (λ f. IsSmall (stated_shown f.stated)) files.now }
    requires of_file { All (λ f. IsOfFile f.stated) files.now }
    requires few { length files.now ≤ 64 }
    ensures tellable { IfOk result (λ r. All IsPart r.0.items) }
    ensures found { IfOk result (λ r. (kept : Option Files) (before now : ℕ) → AreAnswered (request_shown request.now) kept (Rose before now) (files_shown files.now) (parts_shown r.0.items)) }
    ensures gates { IfOk result (λ r. Some (gates_shown r.1) ≡ gates_of Schedule (all_goals (parts_shown r.0.items))) }
    ensures few { IfOk result (λ r. length (all_goals (parts_shown r.0.items)) ≤ 65536) }
{
    let goals = goals_in(alloc, files)?;
    let scheduled = schedule(alloc, goals, request.seed, request.table, request.steps)?;
    let counts = scheduled.counts;
    let parts = parts_of(alloc, files, scheduled.outcomes)?;
    Ok((parts, counts))
}
