//! The report's bytes, whole: it is made before the first certificate is written, and told afterwards.
ghost use Rattle.std.specs.Prelude.{◌≡◌, ◌++◌, ◌<◌, ◌^◌, IfOk, OnOk, All, length, option_map};
ghost use Rattle.bvd_words.specs.Asked.{request_shown};
ghost use Rattle.bvd_report.specs.Report.{all_goals, report};
ghost use Rattle.bvd_report.specs.Shown.{parts_shown, gates_shown};
ghost use Rattle.bvd_report.specs.Tellable.{IsPart};

use crate::file_lines::push_files;
use crate::summary::{push_gates, push_summary};
use crate::told::Part;
use bvd_words::Request;
use goal_reply::GateCounts;
use std::alloc::{AllocError, Global};

/// Adds the report of a request.
fn push_report(
    out: &mut Vec<u8>,
    request: &Request<'_>,
    parts: &[Part<'_>],
    gates: Option<GateCounts>,
) -> Result<(), AllocError>
    requires few { length (all_goals (parts_shown parts.now)) < 2 ^ 31 }
    requires tellable { All IsPart parts.now }
    ensures { OnOk result (out.new.items ≡ out.old.items ++ report (request_shown request.now) (parts_shown parts.now) (option_map gates_shown gates)) }
{
    push_files(out, request.command, request.quiet, parts)?;
    push_summary(out, request.command, parts)?;
    push_gates(out, gates)
}

/// The report of a request over its files, each line ended by LF.
///
/// `prove`, `alone`, `schedule` and `check` write a line `file PATH` before the goals of a file, a line for each goal and a
/// line with counts; where the request is quiet, the counts alone. `cnf` writes a comment and the clauses for each goal, and
/// `show` the goal's canonical line. A file that is absent, too long or no theorem file has its line always, and where
/// gates are counted, their line is last.
///
/// Errors: want of memory alone. Cost: linear in the text; a text of clauses is copied once.
pub fn report(
    alloc: Global,
    request: &Request<'_>,
    parts: &[Part<'_>],
    gates: Option<GateCounts>,
) -> Result<Vec<u8>, AllocError>
    requires few { length (all_goals (parts_shown parts.now)) < 2 ^ 31 }
    requires tellable { All IsPart parts.now }
    ensures { IfOk result (λ text. text.items ≡ report (request_shown request.now) (parts_shown parts.now) (option_map gates_shown gates)) }
{
    let mut out = Vec::new(alloc);
    push_report(&mut out, request, parts, gates)?;
    Ok(out)
}
