//! The places of faults, and the fault of a file with a token that can't stand where it stands.

ghost use Rattle.std.specs.Prelude.{◌≡◌, ◌≤◌, IfOk, length, slice_get};
ghost use Rattle.bv_lex.specs.Cut.{AreTokens};
ghost use Rattle.bv_grammar.specs.Derivation.{IsSyntaxFault};
ghost use Rattle.bv_grammar.specs.Taking.{AreTaken};
ghost use Rattle.bv_parse.specs.Reads.{IsFaultOf, place_of, terminals_of};

use bv_grammar::Taken;
use bv_lex::{Fault, FaultKind, Token, end_place};
use bv_limits::{Met, first_limit_before};
use bvd_text::Place;
use std::alloc::{AllocError, Global};

/// The place of a token; behind the last one it is the end of the file.
fn place_of(bytes: &[u8], tokens: &[Token], at: usize) -> Place
    requires { length bytes.now ≤ 4194304 }
    ensures { result ≡ place_of bytes.now (slice_get tokens.now at) }
{
    match tokens.get(at) {
        Some(token) => token.place,
        None => end_place(bytes),
    }
}

/// A fault at a token.
pub(crate) fn fault_at(kind: FaultKind, bytes: &[u8], tokens: &[Token], at: usize) -> Fault
    requires { length bytes.now ≤ 4194304 }
    ensures { result ≡ record { kind = kind; place = place_of bytes.now (slice_get tokens.now at) } }
{
    Fault {
        kind,
        place: place_of(bytes, tokens, at),
    }
}

/// The fault of a token that meets a limit.
pub(crate) fn limit(met: Met, bytes: &[u8], tokens: &[Token]) -> Fault
    requires { length bytes.now ≤ 4194304 }
    ensures { result ≡ record { kind = FaultKind.Limit met.what; place = place_of bytes.now (slice_get tokens.now met.at) } }
{
    fault_at(FaultKind::Limit(met.what), bytes, tokens, met.at)
}

/// The fault of a file behind whose tokens that were taken the next can't stand: a limit among them, or that one.
pub(crate) fn cut_short(
    alloc: Global,
    bytes: &[u8],
    tokens: &[Token],
    taken: &[Taken],
) -> Result<Fault, AllocError>
    requires size { length bytes.now ≤ 4194304 }
    requires cut { AreTokens bytes.now tokens.now }
    requires taken { AreTaken (terminals_of bytes.now tokens.now) taken.now }
    requires end { IsSyntaxFault (terminals_of bytes.now tokens.now) (length taken.now) }
    ensures { IfOk result (λ f. IsFaultOf bytes.now f) }
{
    match first_limit_before(alloc, tokens, taken)? {
        Some(met) => Ok(limit(met, bytes, tokens)),
        None => Ok(fault_at(FaultKind::Syntax, bytes, tokens, taken.len())),
    }
}
