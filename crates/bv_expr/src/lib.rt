//! Terms on bit vectors and truths, goals, and what they mean: every term has a sort and fitting widths by its type,
//! so that circuits, printers and rules above it meet no ill-formed one.
#![tactic(auto)]

mod expr;
mod goal;
mod meaning;
mod ops;
mod propositional;
mod shape;
mod sorts;

pub use expr::{Expr, Node, WidthClash};
pub use goal::{Goal, Name};
pub use meaning::eval;
pub use ops::{Binary, Sort, Unary, Val};
pub use shape::{Shape, binary_node, shape_of, unary_node};

#[cfg(test)]
mod tests;
