//! The sort that an operator on two parts gives.

ghost use Rattle.std.specs.Prelude.{◌≡◌};
ghost use Rattle.bv_expr.specs.Sorts as spec;

use bv_expr::{Binary, Sort};

/// The sort of vectors of this width, where it is 1 to 128.
pub(crate) fn vectors(width: u128) -> Option<Sort>
    ensures { result ≡ spec.vectors width }
{
    if 1 <= width && width <= 128 {
        Some(Sort::Vector(width as u8))
    } else {
        None
    }
}

/// This sort, where two widths are equal.
fn where_equal(v: u8, w: u8, sort: Sort) -> Option<Sort>
    ensures { result ≡ spec.where_equal v w sort }
{
    if v == w { Some(sort) } else { None }
}

/// The sort that an operator on two vectors gives.
fn vector_sort(op: Binary, v: u8, w: u8) -> Option<Sort>
    ensures { result ≡ spec.vector_sort op v w }
{
    match op {
        Binary::And
        | Binary::Or
        | Binary::Xor
        | Binary::Add
        | Binary::Sub
        | Binary::Mul
        | Binary::Udiv
        | Binary::Umod
        | Binary::Sdiv
        | Binary::Srem
        | Binary::Smod => where_equal(v, w, Sort::Vector(v)),
        Binary::Append => vectors(u128::from(v) + u128::from(w)),
        Binary::Shl | Binary::Lshr | Binary::Ashr => Some(Sort::Vector(v)),
        Binary::Eq | Binary::Ult | Binary::Ule | Binary::Slt | Binary::Sle => where_equal(
            v,
            w,
            Sort::Truth,
        ),
        Binary::TAnd | Binary::TOr | Binary::TXor | Binary::Implies | Binary::TEq => None,
    }
}

/// The sort that an operator on two truths gives.
fn truth_sort(op: Binary) -> Option<Sort>
    ensures { result ≡ spec.truth_sort op }
{
    match op {
        Binary::TAnd | Binary::TOr | Binary::TXor | Binary::Implies | Binary::TEq => Some(
            Sort::Truth,
        ),
        _ => None,
    }
}

/// The sort that an operator on two parts gives.
pub(crate) fn binary_sort(op: Binary, left: Sort, right: Sort) -> Option<Sort>
    ensures { result ≡ spec.binary_sort op left right }
{
    match (left, right) {
        (Sort::Truth, Sort::Truth) => truth_sort(op),
        (Sort::Vector(v), Sort::Vector(w)) => vector_sort(op, v, w),
        (Sort::Truth, Sort::Vector(_)) | (Sort::Vector(_), Sort::Truth) => None,
    }
}
