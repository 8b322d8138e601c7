//! Tokens, with the bytes that they stand on.

use bvd_text::Place;

/// What a token is. Reserved words and signs are told apart by their bytes.
#[derive(Clone, Copy, Debug, PartialEq, Eq)]
pub enum TokenKind {
    /// A name: an ASCII letter, `_` or a Greek small letter from α to ω other than λ, and then any number of these, of
    /// ASCII digits, `'` and the subscript digits ₀ to ₉.
    Name,
    /// A reserved word, which is spelled like a name.
    Reserved,
    /// A numeral, with its value: decimal digits, `0x` and hexadecimal digits of either case, or `0b` and binary digits.
    Numeral(u128),
    /// A string: two quotes, which are part of its bytes, and between them no quote, no backslash and no line feed.
    Text,
    /// A bracket, a punctuation mark or an operator.
    Sign,
}

/// A token: the bytes from `from` up to `to` of its file.
#[derive(Clone, Copy, Debug, PartialEq, Eq)]
pub struct Token {
    /// What it is.
    pub kind: TokenKind,
    /// Its first byte.
    pub from: usize,
    /// The byte behind its last.
    pub to: usize,
    /// The place of its first byte.
    pub place: Place,
}
