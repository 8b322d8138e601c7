//! The line of a file's fault.
ghost use Rattle.std.specs.Prelude.{◌≡◌, ◌++◌, codes, decimal, OnOk, OnErr};
ghost use Rattle.bv_lex.specs.Cut.{IsMemory};
ghost use Rattle.bv_print.specs.Values.{Begins};
ghost use Rattle.bvd_report.specs.Report.{place_text, limit_text, kind_text, fault_line};

use bv_lex::{Fault, FaultKind, What};
use bvd_text::{Place, push_number};
use std::alloc::AllocError;

// Appends line and column.
#[tactic(auto, using(crate::proofs::Fronts::appended, crate::proofs::Fronts::through, crate::proofs::Fronts::unchanged))]
fn push_place(out: &mut Vec<u8>, place: Place) -> Result<(), AllocError>
    ensures ok { OnOk result (out.new.items ≡ out.old.items ++ place_text place) }
    ensures err { OnErr result (Begins out.old.items out.new.items) }
{
    push_number(out, u128::from(place.line))?;
    out.extend_from_slice(b":")?;
    push_number(out, u128::from(place.column))
}

// Appends what stands behind the kind of a fault.
#[tactic(auto, using(crate::proofs::Fronts::appended, crate::proofs::Fronts::through, crate::proofs::Fronts::unchanged))]
fn push_behind_kind(out: &mut Vec<u8>, place: Place) -> Result<(), AllocError>
    ensures ok { OnOk result (out.new.items ≡ out.old.items ++ (codes " " ++ place_text place ++ codes "\n")) }
    ensures err { OnErr result (Begins out.old.items out.new.items) }
{
    out.extend_from_slice(b" ")?;
    push_place(out, place)?;
    out.extend_from_slice(b"\n")
}

// The word of a limit.
fn limit_word(limit: What) -> &'static str
    ensures { result.now ≡ limit_text limit }
{
    match limit {
        What::Number => "number",
        What::Width => "width",
        What::Depth => "depth",
        What::Nodes => "nodes",
        What::Variables => "variables",
        What::Goals => "goals",
    }
}

// Appends the words of a fault's kind; want of memory has none.
#[tactic(auto, using(crate::proofs::Fronts::appended, crate::proofs::Fronts::through, crate::proofs::Fronts::unchanged))]
fn push_kind(out: &mut Vec<u8>, kind: FaultKind) -> Result<(), AllocError>
    ensures ok { OnOk result (out.new.items ≡ out.old.items ++ kind_text kind) }
    ensures err { OnErr result (Begins out.old.items out.new.items) }
{
    match kind {
        FaultKind::Lex => out.extend_from_slice(b"lex"),
        FaultKind::Syntax => out.extend_from_slice(b"syntax"),
        FaultKind::Typing => out.extend_from_slice(b"type"),
        FaultKind::Limit(limit) => {
            out.extend_from_slice(b"limit ")?;
            out.extend_from_slice(limit_word(limit).as_bytes())
        }
        FaultKind::Memory(_) => Ok(()),
    }
}

// Appends a line's first word, a file's name, and what stands behind it.
#[tactic(auto, using(crate::proofs::Fronts::appended, crate::proofs::Fronts::through, crate::proofs::Fronts::unchanged))]
pub(crate) fn push_file_words(out: &mut Vec<u8>, path: &str, behind: &str) -> Result<(), AllocError>
    ensures ok { OnOk result (out.new.items ≡ out.old.items ++ (codes "file " ++ path.now ++ behind.now)) }
    ensures err { OnErr result (Begins out.old.items out.new.items) }
{
    out.extend_from_slice(b"file ")?;
    out.extend_from_slice(path.as_bytes())?;
    out.extend_from_slice(behind.as_bytes())
}

// Appends the line of a fault.
#[tactic(auto, using(crate::proofs::Fronts::appended, crate::proofs::Fronts::through, crate::proofs::Fronts::unchanged))]
fn push_fault_line(out: &mut Vec<u8>, path: &str, fault: &Fault) -> Result<(), AllocError>
    ensures ok { OnOk result (out.new.items ≡ out.old.items ++ fault_line path.now fault.now) }
    ensures err { OnErr result (Begins out.old.items out.new.items) }
{
    push_file_words(out, path, ": ")?;
    push_kind(out, fault.kind)?;
    push_behind_kind(out, fault.place)
}

/// Appends the line of a file's fault, with its LF, as `file a.lean: limit width 1:23`: the file's name, what is wrong,
/// and line and column of the place. Want of memory is no fault of a file.
///
/// Errors: want of memory alone; nothing is appended then. Takes time by the number of bytes that it appends.
#[tactic(auto, using(crate::proofs::Fronts::cut_back))]
pub fn push_fault(out: &mut Vec<u8>, path: &str, fault: &Fault) -> Result<(), AllocError>
    requires { ¬ (IsMemory fault.now.kind) }
    ensures ok { OnOk result (out.new.items ≡ out.old.items ++ fault_line path.now fault.now) }
    ensures err { OnErr result (out.new.items ≡ out.old.items) }
{
    let start = out.len();
    let pushed = push_fault_line(out, path, fault);
    if pushed.is_err() {
        out.truncate(start);
    }
    pushed
}
