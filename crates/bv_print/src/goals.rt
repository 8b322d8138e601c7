//! Goals in canonical text.

ghost use Rattle.std.specs.Prelude.{◌≡◌, ◌++◌, codes, flat_map, option_map, OnOk, OnErr};
ghost use Rattle.bv_print.specs.Canonical.{binder_text, goal_text, head_text, hypothesis_text, proof_text, sort_text, term_text};
ghost use Rattle.bv_print.specs.Values.{Begins};

use crate::terms::push_term;
use bv_expr::{Expr, Goal, Name, Sort};
use bvd_text::push_number;
use std::alloc::AllocError;

// Appends the head of a line.
#[tactic(auto, using(crate::proofs::Fronts::appended, crate::proofs::Fronts::through, crate::proofs::Fronts::unchanged))]
fn push_head(out: &mut Vec<u8>, name: &Name) -> Result<(), AllocError>
    ensures ok { OnOk result (out.new.items ≡ out.old.items ++ head_text name.now) }
    ensures err { OnErr result (Begins out.old.items out.new.items) }
{
    if name.as_str() == "example" {
        return out.extend_from_slice(b"example");
    }
    out.extend_from_slice(b"theorem ")?;
    out.extend_from_slice(name.as_str().as_bytes())
}

// Appends a sort.
#[tactic(auto, using(crate::proofs::Fronts::appended, crate::proofs::Fronts::through, crate::proofs::Fronts::unchanged))]
fn push_sort(out: &mut Vec<u8>, sort: Sort) -> Result<(), AllocError>
    ensures ok { OnOk result (out.new.items ≡ out.old.items ++ sort_text sort) }
    ensures err { OnErr result (Begins out.old.items out.new.items) }
{
    match sort {
        Sort::Truth => out.extend_from_slice(b"Bool"),
        Sort::Vector(width) => {
            out.extend_from_slice(b"BitVec ")?;
            push_number(out, u128::from(width))
        }
    }
}

// Appends the binding of a variable.
#[tactic(auto, using(crate::proofs::Fronts::appended, crate::proofs::Fronts::through, crate::proofs::Fronts::unchanged))]
fn push_binder(out: &mut Vec<u8>, name: &Name, sort: Sort) -> Result<(), AllocError>
    ensures ok { OnOk result (out.new.items ≡ out.old.items ++ binder_text (name.now, sort)) }
    ensures err { OnErr result (Begins out.old.items out.new.items) }
{
    out.extend_from_slice(b" (")?;
    out.extend_from_slice(name.as_str().as_bytes())?;
    out.extend_from_slice(b" : ")?;
    push_sort(out, sort)?;
    out.extend_from_slice(b")")
}

// Appends the bindings of variables.
#[tactic(auto, using(crate::proofs::Fronts::appended, crate::proofs::Fronts::through, crate::proofs::Fronts::unchanged))]
fn push_binders(out: &mut Vec<u8>, binders: &[(Name, Sort)]) -> Result<(), AllocError>
    ensures ok { OnOk result (out.new.items ≡ out.old.items ++ flat_map binder_text binders.now) }
    ensures err { OnErr result (Begins out.old.items out.new.items) }
{
    'variables: for (at, (name, sort)) in binders.iter().enumerate() {
        push_binder(out, name, *sort)?;
    }
    Ok(())
}

// Appends a hypothesis.
#[tactic(auto, using(crate::proofs::Fronts::appended, crate::proofs::Fronts::through, crate::proofs::Fronts::unchanged))]
fn push_hypothesis(
    out: &mut Vec<u8>,
    binders: &[(Name, Sort)],
    hypothesis: &Expr,
) -> Result<(), AllocError>
    ensures ok { OnOk result (out.new.items ≡ out.old.items ++ hypothesis_text binders.now hypothesis.now) }
    ensures err { OnErr result (Begins out.old.items out.new.items) }
{
    out.extend_from_slice(b" (h : ")?;
    push_term(out, binders, hypothesis)?;
    out.extend_from_slice(b")")
}

// Appends hypotheses.
#[tactic(auto, using(crate::proofs::Fronts::appended, crate::proofs::Fronts::through, crate::proofs::Fronts::unchanged))]
fn push_hypotheses(
    out: &mut Vec<u8>,
    binders: &[(Name, Sort)],
    hyps: &[Expr],
) -> Result<(), AllocError>
    ensures ok { OnOk result (out.new.items ≡ out.old.items ++ flat_map (hypothesis_text binders.now) hyps.now) }
    ensures err { OnErr result (Begins out.old.items out.new.items) }
{
    'hypotheses: for (at, hypothesis) in hyps.iter().enumerate() {
        push_hypothesis(out, binders, hypothesis)?;
    }
    Ok(())
}

// Appends how a goal is to be proved.
#[tactic(auto, using(crate::proofs::Fronts::appended, crate::proofs::Fronts::through, crate::proofs::Fronts::unchanged))]
fn push_proof(out: &mut Vec<u8>, stored: &Option<Name>) -> Result<(), AllocError>
    ensures ok { OnOk result (out.new.items ≡ out.old.items ++ proof_text stored.now) }
    ensures err { OnErr result (Begins out.old.items out.new.items) }
{
    match stored {
        None => out.extend_from_slice(b"bv_decide"),
        Some(file) => {
            out.extend_from_slice(b"bv_check \"")?;
            out.extend_from_slice(file.as_str().as_bytes())?;
            out.extend_from_slice(b"\"")
        }
    }
}

// Appends what a line has behind its hypotheses.
#[tactic(auto, using(crate::proofs::Fronts::appended, crate::proofs::Fronts::through, crate::proofs::Fronts::unchanged))]
fn push_conclusion(out: &mut Vec<u8>, goal: &Goal) -> Result<(), AllocError>
    ensures ok { OnOk result (out.new.items ≡ out.old.items ++ codes " : " ++ term_text goal.now.binders goal.now.concl ++ codes " := by " ++ proof_text goal.now.stored ++ codes "\n") }
    ensures err { OnErr result (Begins out.old.items out.new.items) }
{
    out.extend_from_slice(b" : ")?;
    push_term(out, goal.binders.as_slice(), &goal.concl)?;
    out.extend_from_slice(b" := by ")?;
    push_proof(out, &goal.stored)?;
    out.extend_from_slice(b"\n")
}

// Appends the line of a goal.
#[tactic(auto, using(crate::proofs::Fronts::appended, crate::proofs::Fronts::through, crate::proofs::Fronts::unchanged))]
fn push_line(out: &mut Vec<u8>, goal: &Goal) -> Result<(), AllocError>
    ensures ok { OnOk result (out.new.items ≡ out.old.items ++ goal_text goal.now.name goal.now.binders goal.now.hyps goal.now.concl goal.now.stored) }
    ensures err { OnErr result (Begins out.old.items out.new.items) }
{
    push_head(out, &goal.name)?;
    push_binders(out, goal.binders.as_slice())?;
    push_hypotheses(out, goal.binders.as_slice(), goal.hyps.as_slice())?;
    push_conclusion(out, goal)
}

/// Appends the canonical line of a goal, with its line feed, as
/// `theorem s (x : BitVec 8) (h : (0x03#8 < x)) : (!(x = 0x00#8)) := by bv_decide`.
///
/// Names, constants and truths stand alone, and every other term stands in brackets, as does a constant that a method is
/// called of, so that the text rests on no operator's level. A goal of the name `example` begins with that word alone, and
/// one with a stored certificate ends with `bv_check` and the certificate's file. Where memory is refused, nothing is
/// appended.
///
/// Takes time by the number of bytes that it appends, and stack by the depth of the terms.
#[tactic(auto, using(crate::proofs::Fronts::cut_back))]
pub fn print_goal(goal: &Goal, out: &mut Vec<u8>) -> Result<(), AllocError>
    ensures ok { OnOk result (out.new.items ≡ out.old.items ++ goal_text goal.now.name goal.now.binders goal.now.hyps goal.now.concl goal.now.stored) }
    ensures err { OnErr result (out.new.items ≡ out.old.items) }
{
    let start = out.len();
    let printed = push_line(out, goal);
    if printed.is_err() {
        out.truncate(start);
    }
    printed
}
