//! The pieces of a file's goals.

use bv_grammar::Word;

/// A sort as it is written.
#[derive(Clone, Copy, Debug, PartialEq, Eq)]
pub enum Sort {
    /// Truths.
    Truth,
    /// Bit vectors, with the place of the width's numeral.
    Vector(usize),
}

/// A piece of a file's goals. A place is a number of terminals before it in the file. A goal is its head, its binders, its
/// conclusion and its proof, one behind the other; a hypothesis is a term. A term is its parts, in the order in which they are
/// written, and then its own piece, so that the pieces are read with a stack: each makes one term of those that it takes.
#[derive(Clone, Copy, Debug, PartialEq, Eq)]
pub enum Piece {
    /// A name that is a term.
    Name(usize),
    /// A numeral that is a term.
    Numeral(usize),
    /// A number, and its width.
    Literal(usize, usize),
    /// `true`, `false`, `True` or `False`.
    Constant(Word, usize),
    /// A prefix operator, which takes one term.
    Prefix(Word, usize),
    /// An infix operator, which takes two terms.
    Infix(Word, usize),
    /// `if`, which takes three terms.
    Choice(usize),
    /// A method behind its receiver, before its arguments.
    Call(usize),
    /// The same method behind its arguments: it takes these and the receiver.
    Method(usize),
    /// The colon of an ascription, which takes one term.
    Ascribed(usize, Sort),
    /// The head word of a goal. Its name stands behind that up to the second place.
    Goal(usize, usize),
    /// Variables of a sort, whose names stand from the first place up to the second.
    Variables(usize, usize, Sort),
    /// The end of a goal, with the place of the string behind `bv_check`.
    Proof(Option<usize>),
}
