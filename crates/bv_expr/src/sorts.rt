//! Which sorts fit an operator, and what sort it gives.

ghost use Rattle.std.specs.Prelude.{◌≡◌, ◌+◌, ◌<◌, ◌≤◌, Some};
ghost use Rattle.bv_expr.specs.Sorts as spec;

use crate::ops::{Binary, Sort, Unary};

/// The sort of vectors of this width, where it is 1 to 128.
pub(crate) fn vectors(width: u16) -> Option<Sort>
    ensures { result ≡ spec.vectors width }
{
    if 1 <= width && width <= 128 {
        Some(Sort::Vector(width as u8))
    } else {
        None
    }
}

// This sort, where two widths are equal.
fn where_equal(v: u8, w: u8, sort: Sort) -> Option<Sort>
    ensures { result ≡ spec.where_equal v w sort }
{
    if v == w { Some(sort) } else { None }
}

/// The sort that an operator on one part gives.
pub(crate) fn unary_sort(op: Unary, sort: Sort) -> Option<Sort>
    ensures { result ≡ spec.unary_sort op sort }
{
    match sort {
        Sort::Truth => match op {
            Unary::TNot => Some(Sort::Truth),
            _ => None,
        },
        Sort::Vector(_) => match op {
            Unary::TNot => None,
            Unary::Msb | Unary::Bit(_) => Some(Sort::Truth),
            Unary::Extract(_, width) | Unary::SetWidth(width) | Unary::SignExtend(width) => vectors(
                u16::from(width),
            ),
            Unary::Not
            | Unary::Neg
            | Unary::ShlBy(_)
            | Unary::LshrBy(_)
            | Unary::AshrBy(_)
            | Unary::RotL(_)
            | Unary::RotR(_) => Some(sort),
        },
    }
}

// The sort that an operator on two vectors gives.
fn vector_sort(op: Binary, v: u8, w: u8) -> Option<Sort>
    ensures { result ≡ spec.vector_sort op v w }
{
    match op {
        Binary::And
        | Binary::Or
        | Binary::Xor
        | Binary::Add
        | Binary::Sub
        | Binary::Mul
        | Binary::Udiv
        | Binary::Umod
        | Binary::Sdiv
        | Binary::Srem
        | Binary::Smod => where_equal(v, w, Sort::Vector(v)),
        Binary::Append => vectors(u16::from(v) + u16::from(w)),
        Binary::Shl | Binary::Lshr | Binary::Ashr => Some(Sort::Vector(v)),
        Binary::Eq | Binary::Ult | Binary::Ule | Binary::Slt | Binary::Sle => where_equal(
            v,
            w,
            Sort::Truth,
        ),
        Binary::TAnd | Binary::TOr | Binary::TXor | Binary::Implies | Binary::TEq => None,
    }
}

// The sort that an operator on two truths gives.
fn truth_sort(op: Binary) -> Option<Sort>
    ensures { result ≡ spec.truth_sort op }
{
    match op {
        Binary::TAnd | Binary::TOr | Binary::TXor | Binary::Implies | Binary::TEq => Some(
            Sort::Truth,
        ),
        _ => None,
    }
}

/// The sort that an operator on two parts gives.
pub(crate) fn binary_sort(op: Binary, left: Sort, right: Sort) -> Option<Sort>
    ensures { result ≡ spec.binary_sort op left right }
{
    match (left, right) {
        (Sort::Truth, Sort::Truth) => truth_sort(op),
        (Sort::Vector(v), Sort::Vector(w)) => vector_sort(op, v, w),
        (Sort::Truth, Sort::Vector(_)) | (Sort::Vector(_), Sort::Truth) => None,
    }
}

/// The sort of a choice between vectors.
pub(crate) fn choice_sort(test: Sort, left: Sort, right: Sort) -> Option<Sort>
    ensures { result ≡ spec.choice_sort test left right }
{
    match (test, left, right) {
        (Sort::Truth, Sort::Vector(v), Sort::Vector(w)) => where_equal(v, w, Sort::Vector(v)),
        _ => None,
    }
}

/// The sort of a choice between truths.
pub(crate) fn truth_choice_sort(test: Sort, left: Sort, right: Sort) -> Option<Sort>
    ensures { result ≡ spec.truth_choice_sort test left right }
{
    match (test, left, right) {
        (Sort::Truth, Sort::Truth, Sort::Truth) => Some(Sort::Truth),
        _ => None,
    }
}
