//! The line of a goal whose certificate was replayed.
ghost use Rattle.std.specs.Prelude.{◌≡◌, ◌++◌, codes, decimal, OnOk, OnErr};
ghost use Rattle.bv_expr.specs.Statement.{statement_of};
ghost use Rattle.bv_print.specs.Values.{Begins};
ghost use Rattle.bvd_report.specs.Report as spec;
ghost use Rattle.bvd_report.specs.Report.{refusal_text, replay_text, numbered_line};
ghost use Rattle.bvd_report.specs.Tellable.{IsDecided};

use crate::outcome_line::{push_counted, push_numbered_name, push_pair};
use bv_expr::Goal;
use bvd_text::push_number;
use lrat_replay::ReplayStop;
use std::alloc::AllocError;

// Appends a line's number and what is wrong with the line.
#[tactic(auto, using(crate::proofs::Fronts::appended, crate::proofs::Fronts::through, crate::proofs::Fronts::unchanged))]
fn push_cause(out: &mut Vec<u8>, line: u64, cause: &str) -> Result<(), AllocError>
    ensures ok { OnOk result (out.new.items ≡ out.old.items ++ (codes " line " ++ decimal line ++ cause.now)) }
    ensures err { OnErr result (Begins out.old.items out.new.items) }
{
    push_counted(out, " line ", u128::from(line))?;
    out.extend_from_slice(cause.as_bytes())
}

// Appends a line's number and what is wrong with the line, which names a clause.
#[tactic(auto, using(crate::proofs::Fronts::appended, crate::proofs::Fronts::through, crate::proofs::Fronts::unchanged))]
fn push_clause_cause(
    out: &mut Vec<u8>,
    line: u64,
    cause: &str,
    clause: u64,
) -> Result<(), AllocError>
    ensures ok { OnOk result (out.new.items ≡ out.old.items ++ (codes " line " ++ decimal line ++ cause.now ++ decimal clause)) }
    ensures err { OnErr result (Begins out.old.items out.new.items) }
{
    push_cause(out, line, cause)?;
    push_number(out, u128::from(clause))
}

// Appends why a certificate is refused.
#[tactic(auto, using(crate::proofs::Fronts::appended, crate::proofs::Fronts::through, crate::proofs::Fronts::unchanged))]
fn push_refusal(out: &mut Vec<u8>, refused: &ReplayStop) -> Result<(), AllocError>
    ensures ok { OnOk result (out.new.items ≡ out.old.items ++ refusal_text refused.now) }
    ensures err { OnErr result (Begins out.old.items out.new.items) }
{
    match refused {
        ReplayStop::Bad(line) => push_cause(out, *line, ": bad line"),
        ReplayStop::IdInUse(line) => push_cause(out, *line, ": id in use"),
        ReplayStop::NoClause(line, id) => push_clause_cause(out, *line, ": no clause ", *id),
        ReplayStop::NotUnit(line, id) => push_clause_cause(out, *line, ": not unit ", *id),
        ReplayStop::NoConflict(line) => push_cause(out, *line, ": no conflict"),
        ReplayStop::MissingGroup(line, id) => {
            push_clause_cause(out, *line, ": missing group ", *id)
        }
        ReplayStop::StrangeGroup(line, id) => {
            push_clause_cause(out, *line, ": strange group ", *id)
        }
        ReplayStop::NoEmpty => out.extend_from_slice(b": no empty clause"),
        ReplayStop::TooLong | ReplayStop::ReadFault | ReplayStop::Memory(_) => Ok(()),
    }
}

// Appends how a replay ended, in words.
#[tactic(auto, using(crate::proofs::Fronts::appended, crate::proofs::Fronts::through, crate::proofs::Fronts::unchanged))]
pub(crate) fn push_replay_words(
    out: &mut Vec<u8>,
    certificate: &str,
    end: &Result<(), ReplayStop>,
) -> Result<(), AllocError>
    ensures ok { OnOk result (out.new.items ≡ out.old.items ++ replay_text certificate.now end.now) }
    ensures err { OnErr result (Begins out.old.items out.new.items) }
{
    match end {
        Ok(()) => push_pair(out, "accepted ", certificate),
        Err(refused) => {
            push_pair(out, "refused ", certificate)?;
            push_refusal(out, refused)
        }
    }
}

// Appends the line of a replay.
#[tactic(auto, using(crate::proofs::Fronts::appended, crate::proofs::Fronts::through, crate::proofs::Fronts::unchanged))]
fn push_replay_line(
    out: &mut Vec<u8>,
    number: u32,
    goal: &Goal,
    certificate: &str,
    end: &Result<(), ReplayStop>,
) -> Result<(), AllocError>
    ensures ok { OnOk result (out.new.items ≡ out.old.items ++ numbered_line number (record { goal = statement_of goal.now; certificate = certificate.now; told = spec.Told.Replayed end.now })) }
    ensures err { OnErr result (Begins out.old.items out.new.items) }
{
    push_numbered_name(out, number, goal)?;
    push_replay_words(out, certificate, end)?;
    out.extend_from_slice(b"\n")
}

/// Appends the line of the goal of this number, with its LF, as `2. f: refused goal-2.lrat line 1: not unit 21`:
/// whether the certificate of this name is accepted, and if not, by which of its lines and why. A replay that ended for
/// want of bytes or memory, or by a read that failed, refuses no certificate and has no line.
///
/// Errors: want of memory alone; nothing is appended then. Takes time by the number of bytes that it appends.
#[tactic(auto, using(crate::proofs::Fronts::cut_back))]
pub fn push_replay(
    out: &mut Vec<u8>,
    number: u32,
    goal: &Goal,
    certificate: &str,
    end: &Result<(), ReplayStop>,
) -> Result<(), AllocError>
    requires { IsDecided end.now }
    ensures ok { OnOk result (out.new.items ≡ out.old.items ++ numbered_line number (record { goal = statement_of goal.now; certificate = certificate.now; told = spec.Told.Replayed end.now })) }
    ensures err { OnErr result (out.new.items ≡ out.old.items) }
{
    let start = out.len();
    let pushed = push_replay_line(out, number, goal, certificate, end);
    if pushed.is_err() {
        out.truncate(start);
    }
    pushed
}
