//! The piece at the front of what is left: the longest that begins there.

ghost use Rattle.std.specs.Prelude.{◌≡◌, ◌<◌, ◌≤◌, length, codes, IfOk, IfErr};
ghost use Rattle.bv_lex.specs.Words.{Stands};
ghost use Rattle.bv_lex.specs.Pieces.{Prefix};
ghost use Rattle.bv_lex.specs.Cut.{Stops};
ghost use Rattle.bv_lex.specs.Runs.{prefix_of, base_of};
ghost use Rattle.bv_lex.specs.Signs as spec;
ghost use Rattle.bv_lex.specs.Classes.{Begins};
ghost use Rattle.bv_lex.specs.Fronts.{IsCutOff, IsNumeralAt, OnlySigns};

use crate::classes::{Class, class_of};
use crate::comments::comment_end;
use crate::fault::{FaultKind, What};
use crate::names::{letter_length, name_end};
use crate::runs::{Run, byte, is_pair, run_end};
use crate::signs::sign_length;
use crate::token::TokenKind;
use bvd_text::number;

/// A piece that is cut off.
#[derive(Clone, Copy)]
pub(crate) struct Piece {
    /// The kind of a token, or none for what stands between tokens.
    pub kind: Option<TokenKind>,
    /// The byte behind its last.
    pub to: usize,
}

static RESERVED: [&'static [u8]; 17] = [
    b"theorem",
    b"example",
    b"import",
    b"open",
    b"by",
    b"if",
    b"then",
    b"else",
    b"true",
    b"false",
    b"True",
    b"False",
    b"Bool",
    b"BitVec",
    b"intros",
    b"bv_decide",
    b"bv_check",
];

// The kind of a token that is spelled like a name.
fn kind_of_word(word: &[u8]) -> TokenKind
    ensures { result ≡ spec.kind_of_word word.now }
{
    if RESERVED.contains(&word) {
        TokenKind::Reserved
    } else {
        TokenKind::Name
    }
}

// A name or a reserved word.
fn word(text: &[u8], at: usize) -> Result<Piece, FaultKind>
    requires { Begins text.now at Class.Letter }
    ensures front { IfOk result (λ f. IsCutOff text.now f.kind at f.to) }
    ensures fault { IfErr result (Stops text.now at) }
{
    let length = letter_length(text, at);
    if length == 0 {
        return Err(FaultKind::Lex);
    }
    let to = name_end(text, at + length);
    let kind = kind_of_word(&text[at..to]);
    Ok(Piece {
        kind: Some(kind),
        to,
    })
}

// The numeral that ends at `to`.
fn numeral_to(text: &[u8], at: usize, to: usize) -> Result<Piece, FaultKind>
    requires order { at < to }
    requires within { to ≤ length text.now }
    requires numeral { IsNumeralAt text.now at to }
    ensures front { IfOk result (λ f. IsCutOff text.now f.kind at f.to) }
    ensures fault { IfErr result (Stops text.now at) }
{
    match number(&text[at..to]) {
        Ok(value) => Ok(Piece {
            kind: Some(TokenKind::Numeral(value)),
            to,
        }),
        Err(_) => Err(FaultKind::Limit(What::Number)),
    }
}

// A numeral that begins with `0x` or `0b`.
fn prefixed(text: &[u8], at: usize, digits: Run) -> Result<Piece, FaultKind>
    requires prefix { Prefix (prefix_of digits) (base_of digits) }
    requires here { Stands text.now at (prefix_of digits) }
    ensures front { IfOk result (λ f. IsCutOff text.now f.kind at f.to) }
    ensures fault { IfErr result (Stops text.now at) }
{
    let to = run_end(text, at + 2, digits);
    if to == at + 2 {
        return Err(FaultKind::Lex);
    }
    numeral_to(text, at, to)
}

// A numeral.
fn numeral(text: &[u8], at: usize) -> Result<Piece, FaultKind>
    requires { Begins text.now at Class.Digit }
    ensures front { IfOk result (λ f. IsCutOff text.now f.kind at f.to) }
    ensures fault { IfErr result (Stops text.now at) }
{
    if is_pair(text, at, b'0', b'x') {
        return prefixed(text, at, Run::Hexadecimal);
    }
    if is_pair(text, at, b'0', b'b') {
        return prefixed(text, at, Run::Binary);
    }
    let to = run_end(text, at, Run::Decimal);
    numeral_to(text, at, to)
}

// A string.
fn string(text: &[u8], at: usize) -> Result<Piece, FaultKind>
    requires { Begins text.now at Class.Quote }
    ensures front { IfOk result (λ f. IsCutOff text.now f.kind at f.to) }
    ensures fault { IfErr result (Stops text.now at) }
{
    let end = run_end(text, at + 1, Run::String);
    if byte(text, end) != b'"' {
        return Err(FaultKind::Lex);
    }
    Ok(Piece {
        kind: Some(TokenKind::Text),
        to: end + 1,
    })
}

// A nested comment.
fn nested_comment(text: &[u8], at: usize) -> Result<Piece, FaultKind>
    requires { Stands text.now at (codes "/-") }
    ensures front { IfOk result (λ f. IsCutOff text.now f.kind at f.to) }
    ensures fault { IfErr result (Stops text.now at) }
{
    match comment_end(text, at + 2) {
        Some(to) => Ok(Piece { kind: None, to }),
        None => Err(FaultKind::Lex),
    }
}

// A comment to the line's end.
fn line_comment(text: &[u8], at: usize) -> Piece
    requires { Stands text.now at (codes "--") }
    ensures { IsCutOff text.now result.kind at result.to }
{
    Piece {
        kind: None,
        to: run_end(text, at + 2, Run::Line),
    }
}

// A sign.
fn sign(text: &[u8], at: usize) -> Result<Piece, FaultKind>
    requires within { at < length text.now }
    requires signs { OnlySigns text.now at }
    ensures front { IfOk result (λ f. IsCutOff text.now f.kind at f.to) }
    ensures fault { IfErr result (Stops text.now at) }
{
    let length = sign_length(text, at);
    if length == 0 {
        return Err(FaultKind::Lex);
    }
    Ok(Piece {
        kind: Some(TokenKind::Sign),
        to: at + length,
    })
}

// A line comment or a sign.
fn from_minus(text: &[u8], at: usize) -> Result<Piece, FaultKind>
    requires { Begins text.now at Class.Minus }
    ensures front { IfOk result (λ f. IsCutOff text.now f.kind at f.to) }
    ensures fault { IfErr result (Stops text.now at) }
{
    if is_pair(text, at, b'-', b'-') {
        return Ok(line_comment(text, at));
    }
    sign(text, at)
}

// A nested comment or a sign.
fn from_slash(text: &[u8], at: usize) -> Result<Piece, FaultKind>
    requires { Begins text.now at Class.Slash }
    ensures front { IfOk result (λ f. IsCutOff text.now f.kind at f.to) }
    ensures fault { IfErr result (Stops text.now at) }
{
    if is_pair(text, at, b'/', b'-') {
        return nested_comment(text, at);
    }
    sign(text, at)
}

/// The longest piece that begins at `at`, or the fault that stands there. Takes time by the piece's length.
pub(crate) fn front(text: &[u8], at: usize) -> Result<Piece, FaultKind>
    requires { at < length text.now }
    ensures front { IfOk result (λ f. IsCutOff text.now f.kind at f.to) }
    ensures fault { IfErr result (Stops text.now at) }
{
    match class_of(text[at]) {
        Class::Blank => Ok(Piece {
            kind: None,
            to: at + 1,
        }),
        Class::Letter => word(text, at),
        Class::Digit => numeral(text, at),
        Class::Quote => string(text, at),
        Class::Minus => from_minus(text, at),
        Class::Slash => from_slash(text, at),
        Class::Other => sign(text, at),
    }
}
