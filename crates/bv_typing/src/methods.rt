//! The names of methods, and how their terms are typed.

ghost use Rattle.std.specs.Prelude.{◌≡◌, ◌+◌, ◌-◌, map};
ghost use Rattle.bv_typing.specs.Rows as spec;
ghost use Rattle.bv_typing.specs.Methods.{listed, method_of};
ghost use Rattle.bv_typing.specs.Arguments.{kinds_in, put_before};

use crate::kind::{Kind, Row};
use crate::method::{Method, Numbered};
use crate::rows::{resized, sorted};
use crate::sorts::binary_sort;
use bv_expr::{Binary, Sort};

/// The kinds of a method's arguments, as far as a row looks at them.
#[derive(Clone, Copy, Debug, PartialEq, Eq)]
pub(crate) enum Arguments {
    None,
    One(Kind),
    Two(Kind, Kind),
    More,
}

/// One argument more, before the others.
pub(crate) fn put_before(kind: Kind, others: Arguments) -> Arguments
    ensures { result ≡ put_before kind others }
{
    match others {
        Arguments::None => Arguments::One(kind),
        Arguments::One(other) => Arguments::Two(kind, other),
        Arguments::Two(_, _) | Arguments::More => Arguments::More,
    }
}

/// The methods by their names.
const METHODS: [(&[u8], Method); 21] = [
    (b"udiv", Method::With(Binary::Udiv)),
    (b"umod", Method::With(Binary::Umod)),
    (b"sdiv", Method::With(Binary::Sdiv)),
    (b"srem", Method::With(Binary::Srem)),
    (b"smod", Method::With(Binary::Smod)),
    (b"ult", Method::With(Binary::Ult)),
    (b"ule", Method::With(Binary::Ule)),
    (b"slt", Method::With(Binary::Slt)),
    (b"sle", Method::With(Binary::Sle)),
    (b"sshiftRight'", Method::ArithmeticShift),
    (b"sshiftRight", Method::By(Numbered::AshrBy)),
    (b"rotateLeft", Method::By(Numbered::RotL)),
    (b"rotateRight", Method::By(Numbered::RotR)),
    (b"getLsbD", Method::By(Numbered::Bit)),
    (b"setWidth", Method::By(Numbered::SetWidth)),
    (b"zeroExtend", Method::By(Numbered::SetWidth)),
    (b"truncate", Method::By(Numbered::SetWidth)),
    (b"signExtend", Method::By(Numbered::SignExtend)),
    (b"extractLsb'", Method::Extract),
    (b"extractLsb", Method::ExtractBetween),
    (b"msb", Method::Msb),
];

/// The method of a name. Takes constant time.
pub fn method_of(name: &[u8]) -> Option<Method>
    ensures { result ≡ method_of name.now }
{
    look_up(&METHODS, name)
}

fn look_up(table: &[(&[u8], Method)], name: &[u8]) -> Option<Method>
    ensures { result ≡ listed name.now (map (λ m. (m.0.now, m.1)) table.now) }
{
    let mut at = 0;
    while at < table.len() {
        let (spelling, method) = table[at];
        if spelling == name {
            return Some(method);
        }
        at += 1;
    }
    None
}

/// An argument that is a vector of the receiver's width, or a bare term.
fn argument_row(op: Binary, width: u8, argument: Kind) -> Row
    ensures { result ≡ spec.argument_row op width argument }
{
    let receiver = Sort::Vector(width);
    match argument {
        Kind::Sorted(sort) => sorted(binary_sort(op, receiver, sort)),
        Kind::Bare | Kind::Number(_) => sorted(binary_sort(op, receiver, receiver)),
    }
}

fn numbered_row(method: Numbered, width: u8, number: u128) -> Row
    ensures { result ≡ spec.numbered_row method width number }
{
    match method {
        Numbered::AshrBy | Numbered::RotL | Numbered::RotR => Row::Typed(Kind::Sorted(Sort::Vector(
            width,
        ))),
        Numbered::Bit => Row::Typed(Kind::Sorted(Sort::Truth)),
        Numbered::SetWidth | Numbered::SignExtend => resized(number),
    }
}

/// The bits from a place down to another one.
fn between_row(high: u128, low: u128) -> Row
    ensures { result ≡ spec.resized (high - low + 1) }
{
    let above = high.saturating_sub(low);
    if above < 128 {
        resized(above + 1)
    } else {
        Row::TooWide
    }
}

fn arguments_row(method: Method, width: u8, arguments: Arguments) -> Row
    ensures { result ≡ spec.arguments_row method width (kinds_in arguments) }
{
    match (method, arguments) {
        (Method::Msb, Arguments::None) => Row::Typed(Kind::Sorted(Sort::Truth)),
        (Method::With(op), Arguments::One(argument)) => argument_row(op, width, argument),
        (Method::ArithmeticShift, Arguments::One(Kind::Sorted(Sort::Vector(_)))) => Row::Typed(
            Kind::Sorted(Sort::Vector(width)),
        ),
        (Method::By(numbered), Arguments::One(Kind::Number(number))) => numbered_row(
            numbered, width, number,
        ),
        (Method::Extract, Arguments::Two(Kind::Number(_), Kind::Number(len))) => resized(len),
        (Method::ExtractBetween, Arguments::Two(Kind::Number(high), Kind::Number(low))) =>
            between_row(high, low),
        _ => Row::Fails,
    }
}

/// A method of a receiver.
pub(crate) fn method_row(method: Option<Method>, receiver: Kind, arguments: Arguments) -> Row
    ensures { result ≡ spec.method_row method receiver (kinds_in arguments) }
{
    match (method, receiver) {
        (Some(method), Kind::Sorted(Sort::Vector(width))) => arguments_row(
            method, width, arguments,
        ),
        _ => Row::Fails,
    }
}
