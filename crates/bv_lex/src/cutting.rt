//! A file is cut from left to right.

ghost use Rattle.std.specs.Prelude.{◌≡◌, ◌++◌, ◌≤◌, ◌⊎◌, All, AllPairs, length, IfOk, IfErr, OnOk};
ghost use Rattle.std.specs.Str.{IsUtf8};
ghost use Rattle.bv_lex.specs.Cut as spec;
ghost use Rattle.bv_lex.specs.Cut.{AreTokens, IsTokenFault, IsMemory, IsSpanWithin, EndsBefore};
ghost use Rattle.bv_lex.specs.Kept.{tokens_of};

use crate::fault::{Fault, FaultKind, What};
use crate::front::{Piece, front};
use crate::places::place_at;
use crate::token::Token;
use bvd_text::Place;
use std::alloc::{AllocError, Global};

// The bytes up to the first that isn't UTF-8.
fn utf8_front(bytes: &[u8]) -> &[u8]
    ensures front { result.now ≡ spec.utf8_front bytes.now }
    ensures within { length result.now ≤ length bytes.now }
    ensures whole { length bytes.now ≤ length result.now → IsUtf8 bytes.now }
{
    match str::from_utf8(bytes) {
        Ok(_) => bytes,
        Err(error) => &bytes[..error.valid_up_to()],
    }
}

// Keeps a piece that is a token.
fn keep(tokens: &mut Vec<Token>, piece: Piece, from: usize, place: Place) -> Result<(), AllocError>
    ensures { OnOk result (tokens.new.items ≡ tokens.old.items ++ tokens_of piece.kind from piece.to place) }
{
    if let Some(kind) = piece.kind {
        let to = piece.to;
        tokens.push(Token {
            kind,
            from,
            to,
            place,
        })?;
    }
    Ok(())
}

/// The tokens of a file of at most 4,194,304 bytes, in their order. The longest token is taken, and needs no blank behind
/// it. What stands between tokens is spaces, tabs, CR and LF, comments from `--` to the line's end, and comments from `/-`
/// to `-/`, which may be nested. LF alone ends a line.
///
/// `Lex` is answered at the first byte that isn't UTF-8, at a character that begins no token, at `0x` or `0b` without a
/// digit behind it, and at the opening of a comment or a string that isn't closed; `Limit(Number)` at a numeral of 2^128
/// or more. Where there are several of these, the first is answered. Nothing behind the first byte that isn't UTF-8 is
/// read. `Memory` may come at any time, and its place says nothing.
///
/// Takes time linear in the file's length, and memory by the number of its tokens.
pub fn lex(alloc: Global, bytes: &[u8]) -> Result<Vec<Token>, Fault>
    requires { length bytes.now ≤ 4194304 }
    ensures ok { IfOk result (λ tokens. AreTokens bytes.now tokens.items) }
    ensures utf8 { IfOk result (λ tokens. IsUtf8 bytes.now) }
    ensures spans { IfOk result (λ tokens. All (IsSpanWithin (length bytes.now)) tokens.items) }
    ensures rise { IfOk result (λ tokens. AllPairs EndsBefore tokens.items) }
    ensures fault { IfErr result (λ f. IsMemory f.kind ⊎ IsTokenFault bytes.now f) }
    // No other kind of fault ever comes.
    ensures kinds { IfErr result (λ f. IsMemory f.kind ⊎ (f.kind ≡ FaultKind.Lex) ⊎ (f.kind ≡ FaultKind.Limit What.Number)) }
{
    let text = utf8_front(bytes);
    let mut tokens = Vec::new(alloc);
    let mut place = Place { line: 1, column: 1 };
    let mut at = 0;
    while at < text.len() {
        let piece = match front(text, at) {
            Ok(piece) => piece,
            Err(kind) => return Err(Fault { kind, place }),
        };
        keep(&mut tokens, piece, at, place)?;
        place = place_at(bytes, at, piece.to, place);
        at = piece.to;
    }
    if at < bytes.len() {
        return Err(Fault {
            kind: FaultKind::Lex,
            place,
        });
    }
    Ok(tokens)
}
