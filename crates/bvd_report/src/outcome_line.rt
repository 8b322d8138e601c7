//! The line of a goal that was searched for.
ghost use Rattle.std.specs.Prelude.{◌≡◌, ◌++◌, ◌+◌, codes, decimal, OnOk, OnErr};
ghost use Rattle.bv_expr.specs.Goal.{AreValues};
ghost use Rattle.bv_expr.specs.Statement.{statement_of};
ghost use Rattle.bv_print.specs.Values.{Begins};
ghost use Rattle.bvd_report.specs.Report as spec;
ghost use Rattle.bvd_report.specs.Report.{false_text, told_text, numbered_line};
ghost use Rattle.bvd_report.specs.Shown.{reply_shown, outcome_shown};
ghost use Rattle.bvd_report.specs.Tellable.{IsTellable};

use bv_expr::{Goal, Val};
use bv_print::print_values;
use bvd_text::push_number;
use goal_reply::{Outcome, Reply};
use std::alloc::AllocError;

// Appends a word and what stands behind it.
#[tactic(auto, using(crate::proofs::Fronts::appended, crate::proofs::Fronts::through, crate::proofs::Fronts::unchanged))]
pub(crate) fn push_pair(out: &mut Vec<u8>, word: &str, behind: &str) -> Result<(), AllocError>
    ensures ok { OnOk result (out.new.items ≡ out.old.items ++ (word.now ++ behind.now)) }
    ensures err { OnErr result (Begins out.old.items out.new.items) }
{
    out.extend_from_slice(word.as_bytes())?;
    out.extend_from_slice(behind.as_bytes())
}

// Appends a word and a number behind it.
#[tactic(auto, using(crate::proofs::Fronts::appended, crate::proofs::Fronts::through, crate::proofs::Fronts::unchanged))]
pub(crate) fn push_counted(out: &mut Vec<u8>, word: &str, number: u128) -> Result<(), AllocError>
    ensures ok { OnOk result (out.new.items ≡ out.old.items ++ (word.now ++ decimal number)) }
    ensures err { OnErr result (Begins out.old.items out.new.items) }
{
    out.extend_from_slice(word.as_bytes())?;
    push_number(out, number)
}

// Appends a goal's number and its name.
#[tactic(auto, using(crate::proofs::Fronts::appended, crate::proofs::Fronts::through, crate::proofs::Fronts::unchanged))]
pub(crate) fn push_numbered_name(
    out: &mut Vec<u8>,
    number: u32,
    goal: &Goal,
) -> Result<(), AllocError>
    ensures ok { OnOk result (out.new.items ≡ out.old.items ++ (decimal number ++ codes ". " ++ goal.now.name ++ codes ": ")) }
    ensures err { OnErr result (Begins out.old.items out.new.items) }
{
    push_number(out, u128::from(number))?;
    out.extend_from_slice(b". ")?;
    push_pair(out, goal.name.as_str(), ": ")
}

// Appends that a goal is false at values.
#[tactic(auto, using(crate::proofs::Fronts::appended, crate::proofs::Fronts::through, crate::proofs::Fronts::unchanged))]
fn push_false(out: &mut Vec<u8>, goal: &Goal, values: &[Val]) -> Result<(), AllocError>
    requires { AreValues goal.now.binders values.now }
    ensures ok { OnOk result (out.new.items ≡ out.old.items ++ false_text goal.now.binders values.now) }
    ensures err { OnErr result (Begins out.old.items out.new.items) }
{
    if goal.binders.as_slice().is_empty() {
        return out.extend_from_slice(b"false");
    }
    out.extend_from_slice(b"false ")?;
    print_values(goal, values, out)
}

// Appends a reply in words.
#[tactic(auto, using(crate::proofs::Fronts::appended, crate::proofs::Fronts::through, crate::proofs::Fronts::unchanged))]
fn push_reply(
    out: &mut Vec<u8>,
    goal: &Goal,
    reply: &Reply,
    certificate: &str,
) -> Result<(), AllocError>
    requires { IsTellable goal.now.binders (reply_shown reply.now) }
    ensures ok { OnOk result (out.new.items ≡ out.old.items ++ told_text goal.now.binders certificate.now (reply_shown reply.now)) }
    ensures err { OnErr result (Begins out.old.items out.new.items) }
{
    match reply {
        Reply::Proved(_) => push_pair(out, "proved ", certificate),
        Reply::False(values) => push_false(out, goal, values),
        Reply::Budget(spent) => push_counted(out, "budget ", u128::from(*spent)),
        Reply::Deep => out.extend_from_slice(b"deep"),
        Reply::Large => out.extend_from_slice(b"large"),
        Reply::Memory => out.extend_from_slice(b"out of memory"),
    }
}

// Appends that a goal is cancelled for one that is false. Goals are numbered from 0 there, and from 1 in reports.
fn push_cancelled(out: &mut Vec<u8>, by: u32) -> Result<(), AllocError>
    ensures ok { OnOk result (out.new.items ≡ out.old.items ++ (codes "cancelled by " ++ decimal (by + 1))) }
    ensures err { OnErr result (Begins out.old.items out.new.items) }
{
    push_counted(out, "cancelled by ", by as u128 + 1)
}

// Appends an outcome in words.
#[tactic(auto, using(crate::proofs::Fronts::appended, crate::proofs::Fronts::through, crate::proofs::Fronts::unchanged))]
pub(crate) fn push_outcome_words(
    out: &mut Vec<u8>,
    goal: &Goal,
    outcome: &Outcome,
    certificate: &str,
) -> Result<(), AllocError>
    requires { IsTellable goal.now.binders (outcome_shown outcome.now) }
    ensures ok { OnOk result (out.new.items ≡ out.old.items ++ told_text goal.now.binders certificate.now (outcome_shown outcome.now)) }
    ensures err { OnErr result (Begins out.old.items out.new.items) }
{
    match outcome {
        Outcome::Replied(reply) => push_reply(out, goal, reply, certificate),
        Outcome::Full => out.extend_from_slice(b"full"),
        Outcome::Cancelled(by) => push_cancelled(out, *by),
    }
}

// Appends the line of an outcome.
#[tactic(auto, using(crate::proofs::Fronts::appended, crate::proofs::Fronts::through, crate::proofs::Fronts::unchanged))]
fn push_outcome_line(
    out: &mut Vec<u8>,
    number: u32,
    goal: &Goal,
    outcome: &Outcome,
    certificate: &str,
) -> Result<(), AllocError>
    requires { IsTellable goal.now.binders (outcome_shown outcome.now) }
    ensures ok { OnOk result (out.new.items ≡ out.old.items ++ numbered_line number (record { goal = statement_of goal.now; certificate = certificate.now; told = outcome_shown outcome.now })) }
    ensures err { OnErr result (Begins out.old.items out.new.items) }
{
    push_numbered_name(out, number, goal)?;
    push_outcome_words(out, goal, outcome, certificate)?;
    out.extend_from_slice(b"\n")
}

/// Appends the line of the goal of this number, with its LF, as `2. f: false x = 0xff#8`. The values of a false goal are
/// those of its variables; `certificate` is the name that a proved goal's certificate has. A goal that is cancelled for
/// the goal c, counted from 0, is told to be cancelled by c + 1.
///
/// Errors: want of memory alone; nothing is appended then. Takes time by the number of bytes that it appends.
#[tactic(auto, using(crate::proofs::Fronts::cut_back))]
pub fn push_outcome(
    out: &mut Vec<u8>,
    number: u32,
    goal: &Goal,
    outcome: &Outcome,
    certificate: &str,
) -> Result<(), AllocError>
    requires { IsTellable goal.now.binders (outcome_shown outcome.now) }
    ensures ok { OnOk result (out.new.items ≡ out.old.items ++ numbered_line number (record { goal = statement_of goal.now; certificate = certificate.now; told = outcome_shown outcome.now })) }
    ensures err { OnErr result (out.new.items ≡ out.old.items) }
{
    let start = out.len();
    let pushed = push_outcome_line(out, number, goal, outcome, certificate);
    if pushed.is_err() {
        out.truncate(start);
    }
    pushed
}
