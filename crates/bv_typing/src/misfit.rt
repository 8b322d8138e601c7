//! Faults of types, of which the one at the least place is told.

ghost use Rattle.std.specs.Prelude.{◌≡◌};
ghost use Rattle.bv_typing.specs.Earliest.{also};
ghost use Rattle.bv_typing.specs.Goals.{least, not_truth, own};

use crate::kind::{Kind, Row};
use bv_expr::Sort;
use bv_lex::{FaultKind, What};

/// A fault of types.
#[derive(Clone, Copy, Debug, PartialEq, Eq)]
pub struct Misfit {
    /// The place of its token: how many tokens stand before it.
    pub at: usize,
    /// What is wrong.
    pub kind: FaultKind,
}

/// The one at the lesser place of two, the first where they stand at one place. Takes constant time.
pub fn earliest(first: Option<Misfit>, second: Option<Misfit>) -> Option<Misfit>
    ensures { result ≡ also first second }
{
    match (first, second) {
        (Some(left), Some(right)) => if left.at <= right.at { first } else { second },
        (Some(_), None) => first,
        (None, _) => second,
    }
}

/// The fault of a form whose own row doesn't fit.
pub(crate) fn own_misfit(at: usize, row: Option<Row>) -> Option<Misfit>
    ensures { result ≡ least (own at row) }
{
    match row {
        Some(Row::Fails) => Some(Misfit {
            at,
            kind: FaultKind::Typing,
        }),
        Some(Row::TooWide) => Some(Misfit {
            at,
            kind: FaultKind::Limit(What::Width),
        }),
        Some(Row::Typed(_)) | None => None,
    }
}

/// The fault of a hypothesis or a conclusion that is typed and no truth.
pub(crate) fn truth_misfit(at: usize, kind: Option<Kind>) -> Option<Misfit>
    ensures { result ≡ least (not_truth at kind) }
{
    match kind {
        None | Some(Kind::Sorted(Sort::Truth)) => None,
        Some(_) => Some(Misfit {
            at,
            kind: FaultKind::Typing,
        }),
    }
}
