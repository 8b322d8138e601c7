//! How operators are written.

ghost use Rattle.std.specs.Prelude.{◌≡◌};
ghost use Rattle.bv_print.specs.Pieces.{form_of};
ghost use Rattle.bv_print.specs.Spelling.{binary_form, unary_form};

use bv_expr::{Binary, Unary};

/// How an operator is written: a sign before its part, a sign behind its first part, or a method of its first part.
#[derive(Clone, Copy)]
pub enum Spelling {
    Prefix(&'static str),
    Infix(&'static str),
    Method(&'static str),
}

// How an operator on one part is written.
pub fn unary_spelling(op: Unary) -> Spelling
    ensures { form_of result ≡ unary_form op }
{
    match op {
        Unary::Not => Spelling::Prefix("~~~"),
        Unary::Neg => Spelling::Prefix("-"),
        Unary::TNot => Spelling::Prefix("!"),
        Unary::Msb => Spelling::Method("msb"),
        Unary::ShlBy(_) => Spelling::Infix("<<<"),
        Unary::LshrBy(_) => Spelling::Infix(">>>"),
        Unary::AshrBy(_) => Spelling::Method("sshiftRight"),
        Unary::RotL(_) => Spelling::Method("rotateLeft"),
        Unary::RotR(_) => Spelling::Method("rotateRight"),
        Unary::Bit(_) => Spelling::Method("getLsbD"),
        Unary::Extract(_, _) => Spelling::Method("extractLsb'"),
        Unary::SetWidth(_) => Spelling::Method("setWidth"),
        Unary::SignExtend(_) => Spelling::Method("signExtend"),
    }
}

// How an operator on two parts is written.
pub fn binary_spelling(op: Binary) -> Spelling
    ensures { form_of result ≡ binary_form op }
{
    match op {
        Binary::And => Spelling::Infix("&&&"),
        Binary::Or => Spelling::Infix("|||"),
        Binary::Xor => Spelling::Infix("^^^"),
        Binary::Add => Spelling::Infix("+"),
        Binary::Sub => Spelling::Infix("-"),
        Binary::Mul => Spelling::Infix("*"),
        Binary::Udiv => Spelling::Infix("/"),
        Binary::Umod => Spelling::Infix("%"),
        Binary::Sdiv => Spelling::Method("sdiv"),
        Binary::Srem => Spelling::Method("srem"),
        Binary::Smod => Spelling::Method("smod"),
        Binary::Append => Spelling::Infix("++"),
        Binary::Shl => Spelling::Infix("<<<"),
        Binary::Lshr => Spelling::Infix(">>>"),
        Binary::Ashr => Spelling::Method("sshiftRight'"),
        Binary::Eq => Spelling::Infix("="),
        Binary::Ult => Spelling::Infix("<"),
        Binary::Ule => Spelling::Infix("<="),
        Binary::Slt => Spelling::Method("slt"),
        Binary::Sle => Spelling::Method("sle"),
        Binary::TAnd => Spelling::Infix("&&"),
        Binary::TOr => Spelling::Infix("||"),
        Binary::TXor => Spelling::Infix("^^"),
        Binary::Implies => Spelling::Infix("->"),
        Binary::TEq => Spelling::Infix("="),
    }
}
