//! Of which kind a term is, and what a form's row says of it.

use bv_expr::Sort;

/// Of which kind a term is.
#[derive(Clone, Copy, Debug, PartialEq, Eq)]
pub enum Kind {
    /// A truth, or a vector of a width.
    Sorted(Sort),
    /// A term of numerals, which is read at the width of what stands beside it.
    Bare,
    /// A numeral alone, brackets aside: it is bare too, and may be a number argument.
    Number(u128),
}

/// What the row of a form says of its parts.
#[derive(Clone, Copy, Debug, PartialEq, Eq)]
pub enum Row {
    /// They fit, and the term is of this kind.
    Typed(Kind),
    /// They don't fit.
    Fails,
    /// They fit, but the width that they give is 0 or above 128.
    TooWide,
}
