//! What the trees of a goal are read as.

use bv_expr::Expr;

/// What a tree is read as.
#[derive(Drop)]
pub enum Item {
    /// A numeral that is read at no width.
    Number(u128),
    /// A term.
    Made(Expr),
}
