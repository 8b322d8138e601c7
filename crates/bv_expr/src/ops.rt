//! Sorts, values and the two kinds of operator: a node's kind without its parts, so that code matches on few cases.

use bv_value::Bv;

/// What a term stands for: a truth, or vectors of a width.
#[derive(Clone, Copy, Debug, PartialEq, Eq)]
pub enum Sort {
    Truth,
    Vector(u8),
}

/// A value: a truth, or a bit vector.
#[derive(Clone, Copy, Debug, PartialEq, Eq)]
pub enum Val {
    Truth(bool),
    Vector(Bv),
}

/// An operator on one part, with the numbers that it keeps.
#[derive(Clone, Copy, Debug, PartialEq, Eq)]
pub enum Unary {
    Not,
    Neg,
    Msb,
    TNot,
    ShlBy(u128),
    LshrBy(u128),
    AshrBy(u128),
    RotL(u128),
    RotR(u128),
    Bit(u128),
    Extract(u128, u8),
    SetWidth(u8),
    SignExtend(u8),
}

/// An operator on two parts.
#[derive(Clone, Copy, Debug, PartialEq, Eq)]
pub enum Binary {
    And,
    Or,
    Xor,
    Add,
    Sub,
    Mul,
    Udiv,
    Umod,
    Sdiv,
    Srem,
    Smod,
    Append,
    Shl,
    Lshr,
    Ashr,
    Eq,
    Ult,
    Ule,
    Slt,
    Sle,
    TAnd,
    TOr,
    TXor,
    Implies,
    TEq,
}
