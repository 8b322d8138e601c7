//! The terminals of a file's tokens: one table from spellings to words.

ghost use Rattle.std.specs.Prelude.{◌≡◌, ℕ, All, IfOk, length, map, List};
ghost use Rattle.bv_lex.specs.Cut.{IsSpanWithin};
ghost use Rattle.bv_terminals.specs.Spellings as spec;

use bv_grammar::{Terminal, Word};
use bv_lex::{Token, TokenKind};
use std::alloc::{AllocError, Global};

/// The reserved words.
const RESERVED: [(&[u8], Word); 17] = [
    (b"theorem", Word::Theorem),
    (b"example", Word::Example),
    (b"import", Word::Import),
    (b"open", Word::Open),
    (b"by", Word::By),
    (b"if", Word::If),
    (b"then", Word::Then),
    (b"else", Word::Else),
    (b"true", Word::True),
    (b"false", Word::False),
    (b"True", Word::TrueProposition),
    (b"False", Word::FalseProposition),
    (b"Bool", Word::Bool),
    (b"BitVec", Word::BitVec),
    (b"intros", Word::Intros),
    (b"bv_decide", Word::Decide),
    (b"bv_check", Word::Check),
];

/// The signs. The ASCII and the mathematical spelling of an operator are one word.
const SIGNS: [(&[u8], Word); 45] = [
    (b"(", Word::LeftRound),
    (b")", Word::RightRound),
    (b"{", Word::LeftBrace),
    (b"}", Word::RightBrace),
    (b":", Word::Colon),
    (b":=", Word::Assign),
    (b".", Word::Dot),
    (b",", Word::Comma),
    (b";", Word::Semicolon),
    (b"#", Word::Hash),
    (b"~~~", Word::Complement),
    (b"<<<", Word::ShiftLeft),
    (b">>>", Word::ShiftRight),
    (b"-", Word::Minus),
    (b"*", Word::Times),
    (b"/", Word::Divide),
    (b"%", Word::Modulo),
    (b"+", Word::Plus),
    (b"++", Word::Append),
    (b"&&&", Word::BitAnd),
    (b"^^^", Word::BitXor),
    (b"|||", Word::BitOr),
    (b"=", Word::Equal),
    (b"\xE2\x89\xA0", Word::NotEqual),
    (b"==", Word::BoolEqual),
    (b"!=", Word::BoolNotEqual),
    (b"<", Word::Less),
    (b"\xE2\x89\xA4", Word::AtMost),
    (b"<=", Word::AtMost),
    (b">", Word::Greater),
    (b"\xE2\x89\xA5", Word::AtLeast),
    (b">=", Word::AtLeast),
    (b"\xC2\xAC", Word::Not),
    (b"!", Word::BoolNot),
    (b"\xE2\x88\xA7", Word::And),
    (b"/\\", Word::And),
    (b"&&", Word::BoolAnd),
    (b"^^", Word::BoolXor),
    (b"\xE2\x88\xA8", Word::Or),
    (b"\\/", Word::Or),
    (b"||", Word::BoolOr),
    (b"\xE2\x86\x92", Word::Implies),
    (b"->", Word::Implies),
    (b"\xE2\x86\x94", Word::Iff),
    (b"<->", Word::Iff),
];

/// The terminals of a file's tokens, in their order. The error is want of memory alone. The time is linear in the number of
/// tokens.
pub fn terminals(alloc: Global, bytes: &[u8], tokens: &[Token]) -> Result<Vec<Terminal>, AllocError>
    requires { All (IsSpanWithin (length bytes.now)) tokens.now }
    ensures { IfOk result (λ ts. ts.items ≡ map (spec.terminal_of bytes.now) tokens.now) }
{
    let mut terminals = Vec::new(alloc);
    for token in tokens {
        terminals.push(terminal(token.kind, &bytes[token.from..token.to]))?;
    }
    Ok(terminals)
}

/// The terminal of a token of this kind and spelling.
fn terminal(kind: TokenKind, text: &[u8]) -> Terminal
    ensures { result ≡ spec.terminal_of_kind kind text.now }
{
    match kind {
        TokenKind::Name => Terminal::Name,
        TokenKind::Numeral(_) => Terminal::Numeral,
        TokenKind::Text => Terminal::Text,
        TokenKind::Reserved => Terminal::Word(reserved(text)),
        TokenKind::Sign => Terminal::Word(sign(text)),
    }
}

fn reserved(text: &[u8]) -> Word
    ensures { result ≡ spec.or_comma (spec.look_up spec.reserved text.now) }
{
    look_up(&RESERVED, text)
}

fn sign(text: &[u8]) -> Word
    ensures { result ≡ spec.or_comma (spec.look_up spec.signs text.now) }
{
    look_up(&SIGNS, text)
}

/// The word that is spelled so, and a comma where none is.
fn look_up(table: &[(&[u8], Word)], text: &[u8]) -> Word
    ensures { result ≡ spec.or_comma (spec.look_up (map (λ e. (e.0.now, e.1)) table.now) text.now) }
{
    let mut at = 0;
    while at < table.len() {
        let (spelling, word) = table[at];
        if spelling == text {
            return word;
        }
        at += 1;
    }
    Word::Comma
}
