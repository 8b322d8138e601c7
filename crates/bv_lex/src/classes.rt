//! The first bytes of pieces.

ghost use Rattle.std.specs.Prelude.{◌≡◌};
ghost use Rattle.bv_lex.specs.Letters as letters;
ghost use Rattle.bv_lex.specs.Classes as spec;

use crate::names::is_ascii_letter;

/// Which pieces a byte may begin.
#[derive(Clone, Copy)]
pub(crate) enum Class {
    /// A blank.
    Blank,
    /// A name or a reserved word.
    Letter,
    /// A numeral.
    Digit,
    /// A string.
    Quote,
    /// A line comment or a sign.
    Minus,
    /// A nested comment or a sign.
    Slash,
    /// A sign, if any.
    Other,
}

// Whether a byte is a blank.
fn is_blank(byte: u8) -> bool
    ensures { result ≡ letters.is_blank byte }
{
    byte == b' ' || byte == b'\t' || byte == b'\n' || byte == b'\r'
}

// Whether a byte may be the first of a name.
fn is_letter_byte(byte: u8) -> bool
    ensures { result ≡ spec.is_letter_byte byte }
{
    is_ascii_letter(byte) || byte == 0xCE || byte == 0xCF
}

/// The class of a byte.
pub(crate) fn class_of(byte: u8) -> Class
    ensures { result ≡ spec.class_of byte }
{
    if is_blank(byte) {
        Class::Blank
    } else if is_letter_byte(byte) {
        Class::Letter
    } else if byte.is_ascii_digit() {
        Class::Digit
    } else if byte == b'"' {
        Class::Quote
    } else if byte == b'-' {
        Class::Minus
    } else if byte == b'/' {
        Class::Slash
    } else {
        Class::Other
    }
}
