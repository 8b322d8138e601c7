//! What the tokens of a file spell.

ghost use Rattle.std.specs.Prelude.{◌≡◌, ◌<◌, ◌≤◌, ◌+◌, ◌-◌, All, length, slice_get, slice_range};
ghost use Rattle.bv_lex.specs.Cut.{IsSpanWithin};
ghost use Rattle.bv_typing.specs.Source as spec;

use bv_lex::{Token, TokenKind};
use std::marker::Model;

/// The bytes of a file, and its tokens.
#[derive(Drop)]
pub struct File<'a> {
    bytes: &'a [u8],
    tokens: &'a [Token],
}

impl<'a> Model for File<'a> {
    ghost use Rattle.std.specs.Prelude.{All, length};
    ghost use Rattle.bv_lex.specs.Cut.{IsSpanWithin};
    ghost use Rattle.bv_typing.specs.Source.{Source};

    ghost Value = { Source };

    ghost view = { λ f. record { bytes = f.bytes.now; tokens = f.tokens.now } };

    ghost invariant = { λ f. All (IsSpanWithin (length f.bytes.now)) f.tokens.now };
}

impl<'a> File<'a> {
    /// These bytes and their tokens. Takes constant time.
    pub fn new(bytes: &'a [u8], tokens: &'a [Token]) -> File<'a>
        requires { All (IsSpanWithin (length bytes.now)) tokens.now }
        ensures { result ≡ record { bytes = bytes.now; tokens = tokens.now } }
    {
        File { bytes, tokens }
    }

    /// What the token at a place spells.
    pub fn text_at(&self, at: usize) -> &'a [u8]
        ensures { result.now ≡ spec.text_at self.now at }
    {
        text_of(self.bytes, self.tokens, at)
    }

    /// What stands between the quotes of the string at a place.
    pub fn quoted_at(&self, at: usize) -> &'a [u8]
        ensures { result.now ≡ spec.quoted_at self.now at }
    {
        quoted_of(self.bytes, self.tokens, at)
    }

    /// The number of the numeral at a place.
    pub fn number_at(&self, at: usize) -> u128
        ensures { result ≡ spec.number_at self.now at }
    {
        match self.tokens.get(at) {
            Some(token) => number_of_kind(token.kind),
            None => 0,
        }
    }
}

fn text_of<'a>(bytes: &'a [u8], tokens: &[Token], at: usize) -> &'a [u8]
    requires { All (IsSpanWithin (length bytes.now)) tokens.now }
    ensures { result.now ≡ spec.text_of bytes.now (slice_get tokens.now at) }
{
    if at < tokens.len() {
        let token = tokens[at];
        &bytes[token.from..token.to]
    } else {
        &[]
    }
}

fn quoted_of<'a>(bytes: &'a [u8], tokens: &[Token], at: usize) -> &'a [u8]
    requires { All (IsSpanWithin (length bytes.now)) tokens.now }
    ensures { result.now ≡ spec.quoted_of bytes.now (slice_get tokens.now at) }
{
    if at < tokens.len() {
        let token = tokens[at];
        match token.kind {
            TokenKind::Text => inside(bytes, token.from, token.to),
            _ => &[],
        }
    } else {
        &[]
    }
}

// What stands inside a span, apart from its first byte and its last one.
fn inside(bytes: &[u8], from: usize, to: usize) -> &[u8]
    requires some { from < to }
    requires within { to ≤ length bytes.now }
    ensures { result.now ≡ slice_range bytes.now (from + 1) (to - 1) }
{
    if to - from < 2 {
        return &[];
    }
    &bytes[from + 1..to - 1]
}

fn number_of_kind(kind: TokenKind) -> u128
    ensures { result ≡ spec.number_of_kind kind }
{
    match kind {
        TokenKind::Numeral(number) => number,
        _ => 0,
    }
}
