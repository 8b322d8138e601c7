//! The methods of vectors.

use bv_expr::Binary;

/// A method of a vector.
#[derive(Clone, Copy, Debug, PartialEq, Eq)]
pub enum Method {
    /// The highest bit.
    Msb,
    /// An operator with one argument, a vector of the receiver's width.
    With(Binary),
    /// The arithmetic shift to the right by a vector of any width.
    ArithmeticShift,
    /// An operator with one number.
    By(Numbered),
    /// Bits from a place on: the place and the number of bits.
    Extract,
    /// Bits between two places: the higher and the lower one, both included.
    ExtractBetween,
}

/// What is done by a number.
#[derive(Clone, Copy, Debug, PartialEq, Eq)]
pub enum Numbered {
    /// The arithmetic shift to the right by an amount.
    AshrBy,
    /// The rotation to the left.
    RotL,
    /// The rotation to the right.
    RotR,
    /// A bit.
    Bit,
    /// The same number at a width, cut or filled with zeros.
    SetWidth,
    /// The same number at a width, cut or filled with the sign.
    SignExtend,
}
