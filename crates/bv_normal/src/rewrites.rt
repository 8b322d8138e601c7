//! What a rule makes of a node, told apart from the work of making it: rules only read, and the parts are moved once.

use bv_expr::Unary;

/// What a rule makes of a term.
#[derive(Clone, Copy)]
pub(crate) enum Rewrite {
    /// A truth.
    Truth(bool),
    /// The constant vector of the term's width with this number.
    Number(u128),
    /// The term.
    Itself,
    /// The part of the term, which has one.
    Part,
    /// An operator on the term.
    Under(Unary),
    /// The term's bits that are set in this number too.
    Masked(u128),
}

/// What a rule makes of two operands: it is made of one of them.
#[derive(Clone, Copy)]
pub(crate) enum Operand {
    Left(Rewrite),
    Right(Rewrite),
}
