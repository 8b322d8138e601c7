//! The limits that a token meets by itself, or by how many stand before it.

ghost use Rattle.std.specs.Prelude.{◌≡◌, ℕ, ◌+◌, ◌<◌, ◌^◌, IfSome, List, length, slice_get, Option, Some, None};
ghost use Rattle.bv_lex.specs.declared.fault.What.{What};
ghost use Rattle.bv_grammar.specs.declared.words.Terminal.{Terminal};
ghost use Rattle.bv_grammar.specs.Taking.{AreTaken};
ghost use Rattle.bv_limits.specs.Counting as spec;
ghost use Rattle.bv_limits.specs.Files.{IsLeast};
ghost use Rattle.bv_limits.specs.Limits.{IsPlainLimit};
ghost use Rattle.bv_limits.specs.Answers.{IsFirstOf};

use bv_grammar::{Role, Taken, Word};
use bv_lex::{Token, TokenKind, What};

/// A limit that is met at a token.
#[derive(Clone, Copy, Debug, PartialEq, Eq)]
pub struct Met {
    /// Which.
    pub what: What,
    /// The place of the token: how many stand before it.
    pub at: usize,
}

/// What is counted so far.
#[derive(Clone, Copy, Debug)]
pub(crate) struct Counters {
    /// Head words.
    heads: usize,
    /// Tokens of the terms of a goal, since its head word.
    nodes: Option<usize>,
}

/// The first limit that a token meets by itself or by how many stand before it, where the tokens are taken so: a width that
/// is 0 or above 128; more than 1,000 brackets, prefix operators, `if`s and infix operators that wait; the 100,001st token of
/// a goal's terms; the 1,025th goal. Of several at one token that is told which stands first in `What`. Takes time linear in
/// the number of tokens.
pub fn first_plain_limit(tokens: &[Token], taken: &[Taken]) -> Option<Met>
    ensures { (ts : List Terminal) → AreTaken ts taken.now → IsLeast (IsPlainLimit tokens.now ts (length taken.now)) result }
{
    find_limit(tokens, taken)
}

fn find_limit(tokens: &[Token], taken: &[Taken]) -> Option<Met>
    ensures { IsFirstOf tokens.now taken.now result }
{
    let mut counters = start();
    let mut at = 0;
    while at < taken.len() {
        let next = taken_at(taken, at);
        let found = limit_there(token_at(tokens, at), next, counters);
        if let Some(what) = found {
            return Some(Met { what, at });
        }
        counters = counted(next, counters);
        at += 1;
    }
    None
}

fn token_at(tokens: &[Token], at: usize) -> Option<Token>
    ensures { result ≡ slice_get tokens.now at }
{
    tokens.get(at).copied()
}

fn taken_at(taken: &[Taken], at: usize) -> Option<Taken>
    ensures { result ≡ slice_get taken.now at }
{
    taken.get(at).copied()
}

/// The limit that a token meets behind these.
fn limit_there(token: Option<Token>, taken: Option<Taken>, counters: Counters) -> Option<What>
    ensures { result ≡ spec.limit_there token taken counters }
{
    match taken {
        Some(taken) => limit_of(is_wide(token), taken, counters),
        None => None,
    }
}

/// What is counted behind a token.
fn counted(taken: Option<Taken>, counters: Counters) -> Counters
    requires heads { counters.heads + 1 < 2 ^ 64 }
    requires nodes { IfSome counters.nodes (λ n. n + 1 < 2 ^ 64) }
    ensures { result ≡ spec.counted taken counters }
{
    match taken {
        Some(taken) => count(taken.role, counters),
        None => counters,
    }
}

fn start() -> Counters
    ensures { result ≡ spec.start }
{
    Counters {
        heads: 0,
        nodes: None,
    }
}

/// One token more.
fn count(role: Role, counters: Counters) -> Counters
    requires heads { counters.heads + 1 < 2 ^ 64 }
    requires nodes { IfSome counters.nodes (λ n. n + 1 < 2 ^ 64) }
    ensures { result ≡ spec.count role counters }
{
    if is_head(role) {
        return Counters {
            heads: counters.heads + 1,
            nodes: Some(0),
        };
    }
    if !is_term_token(role) {
        return counters;
    }
    let nodes = match counters.nodes {
        Some(nodes) => Some(nodes + 1),
        None => None,
    };
    Counters {
        heads: counters.heads,
        nodes,
    }
}

/// The limit that a token meets behind these.
fn limit_of(wide: bool, taken: Taken, counters: Counters) -> Option<What>
    ensures { result ≡ spec.limit_of wide taken counters }
{
    if wide && is_width(taken.role) {
        return Some(What::Width);
    }
    if taken.waiting > 1000 {
        return Some(What::Depth);
    }
    if is_full(counters.nodes) && is_term_token(taken.role) {
        return Some(What::Nodes);
    }
    if counters.heads == 1024 && is_head(taken.role) {
        return Some(What::Goals);
    }
    None
}

fn is_full(nodes: Option<usize>) -> bool
    ensures { result ≡ spec.is_full nodes }
{
    match nodes {
        Some(nodes) => nodes == 100_000,
        None => false,
    }
}

/// Whether a token is a number that is no width.
fn is_wide(token: Option<Token>) -> bool
    ensures { result ≡ spec.is_wide token }
{
    match token {
        Some(token) => match token.kind {
            TokenKind::Numeral(number) => number == 0 || number > 128,
            _ => false,
        },
        None => false,
    }
}

fn is_head(role: Role) -> bool
    ensures { result ≡ spec.is_head role }
{
    match role {
        Role::Word(Word::Theorem | Word::Example) => true,
        _ => false,
    }
}

fn is_term_token(role: Role) -> bool
    ensures { result ≡ spec.is_term_token role }
{
    match role {
        Role::Variable | Role::Numeral | Role::Constant(_) => true,
        Role::Prefix(_) | Role::Infix(_) | Role::Method => true,
        Role::Word(Word::If) => true,
        _ => false,
    }
}

fn is_width(role: Role) -> bool
    ensures { result ≡ spec.is_width role }
{
    match role {
        Role::Width => true,
        _ => false,
    }
}
