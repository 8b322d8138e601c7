//! At which widths the parts of a term are read, by their kinds.

ghost use Rattle.std.specs.Prelude.{◌≡◌};
ghost use Rattle.bv_typing.specs.Notes as notes;
ghost use Rattle.bv_typing.specs.Readings as spec;

use crate::kind::Kind;
use crate::method::Method;
use crate::note::Note;
use bv_expr::Sort;
use bv_grammar::Word;

/// What a piece without parts, or one that tells them nothing, is noted as.
pub(crate) fn nothing() -> Note
    ensures { result ≡ notes.nothing }
{
    tells(None)
}

/// A piece that tells its parts this width.
pub(crate) fn tells(width: Option<u8>) -> Note
    ensures { result ≡ notes.tells width }
{
    Note {
        width,
        arguments: 0,
    }
}

/// The width of a term of this kind.
pub(crate) fn width_in(kind: Option<Kind>) -> Option<u8>
    ensures { result ≡ spec.width_in kind }
{
    match kind {
        Some(Kind::Sorted(Sort::Vector(width))) => Some(width),
        _ => None,
    }
}

/// The width of the first of two that has one.
pub(crate) fn either(first: Option<u8>, second: Option<u8>) -> Option<u8>
    ensures { result ≡ spec.either first second }
{
    match first {
        Some(_) => first,
        None => second,
    }
}

fn is_shift(word: Word) -> bool
    ensures { result ≡ spec.is_shift word }
{
    match word {
        Word::ShiftLeft | Word::ShiftRight => true,
        _ => false,
    }
}

/// The width that the parts of an infix operator tell; a shift's amount tells none.
pub(crate) fn infix_width(word: Word, left: Option<Kind>, right: Option<Kind>) -> Option<u8>
    ensures { result ≡ spec.infix_width word left right }
{
    if is_shift(word) {
        None
    } else {
        either(width_in(left), width_in(right))
    }
}

/// The width at which the arguments of a method are read; numbers are read at none.
pub(crate) fn width_for(method: Option<Method>, receiver: Option<Kind>) -> Option<u8>
    ensures { result ≡ spec.width_for method receiver }
{
    match method {
        Some(Method::With(_)) => width_in(receiver),
        _ => Some(0),
    }
}

/// The width of vectors of this sort.
pub(crate) fn width_of_sort(sort: Option<Sort>) -> Option<u8>
    ensures { result ≡ spec.width_of_sort sort }
{
    match sort {
        Some(Sort::Vector(width)) => Some(width),
        _ => None,
    }
}
