//! What a form's own row says, and of which kind and depth its term then is, by the kinds and depths of its parts.

ghost use Rattle.std.specs.Prelude.{◌≡◌, ℕ, ◌+◌, ◌≤◌, ◌<◌, ◌^◌};
ghost use Rattle.bv_limits.specs.Depths.{added};
ghost use Rattle.bv_typing.specs.Readings.{ascribed_to};
ghost use Rattle.bv_typing.specs.Verdicts as spec;

use crate::kind::{Kind, Row};
use crate::method::Method;
use crate::methods::{Arguments, method_row, put_before};
use crate::rows::{ascribed_row, choice_row, infix_row, prefix_row};
use bv_expr::Sort;
use bv_grammar::Word;

/// The kind of a term that is typed, and its depth.
#[derive(Clone, Copy, Debug, PartialEq, Eq)]
pub(crate) struct Typed {
    pub kind: Kind,
    pub depth: u32,
}

/// What a form's own row says, and of which kind and depth its term then is.
#[derive(Clone, Copy, Debug, PartialEq, Eq)]
pub(crate) struct Verdict {
    pub row: Row,
    pub typed: Option<Typed>,
}

/// The arguments of a method.
#[derive(Clone, Copy, Debug, PartialEq, Eq)]
pub(crate) struct Gathered {
    /// Their kinds, where all are typed.
    pub kinds: Option<Arguments>,
    /// The depth of the deepest that is typed.
    pub depth: u32,
    /// How many there are.
    pub count: usize,
}

/// A term of this depth.
pub(crate) fn verdict_at(depth: u32, row: Row) -> Verdict
    ensures { result ≡ spec.verdict_at depth row }
{
    let typed = match row {
        Row::Typed(kind) => Some(Typed { kind, depth }),
        Row::Fails | Row::TooWide => None,
    };
    Verdict { row, typed }
}

/// A term that is deeper by this than its parts, and maybe too deep.
fn deeper(depth: u32, by: u32, row: Row) -> Verdict
    requires { by ≤ 2 }
    ensures { result ≡ spec.deeper (depth + by) row }
{
    if depth <= 1000 - by {
        verdict_at(depth + by, row)
    } else {
        verdict_at(depth, Row::Fails)
    }
}

/// What an infix operator adds to the depth of its deeper part: `≠` and `!=` are a negation too.
fn added(word: Word) -> u32
    ensures { result ≡ added word }
{
    match word {
        Word::NotEqual | Word::BoolNotEqual => 2,
        _ => 1,
    }
}

pub(crate) fn prefix_verdict(word: Word, part: Option<Typed>) -> Option<Verdict>
    ensures { result ≡ spec.prefix_verdict word part }
{
    match part {
        Some(part) => Some(deeper(part.depth, 1, prefix_row(word, part.kind))),
        None => None,
    }
}

pub(crate) fn infix_verdict(
    word: Word,
    left: Option<Typed>,
    right: Option<Typed>,
) -> Option<Verdict>
    ensures { result ≡ spec.infix_verdict word left right }
{
    match (left, right) {
        (Some(left), Some(right)) => {
            let row = infix_row(word, left.kind, right.kind);
            Some(deeper(left.depth.max(right.depth), added(word), row))
        }
        _ => None,
    }
}

pub(crate) fn choice_verdict(
    test: Option<Typed>,
    left: Option<Typed>,
    right: Option<Typed>,
) -> Option<Verdict>
    ensures { result ≡ spec.choice_verdict test left right }
{
    match (test, left, right) {
        (Some(test), Some(left), Some(right)) => {
            let row = choice_row(test.kind, left.kind, right.kind);
            Some(deeper(test.depth.max(left.depth.max(right.depth)), 1, row))
        }
        _ => None,
    }
}

/// A term that is ascribed to a sort.
fn ascribed_to(sort: Option<Sort>, kind: Kind) -> Row
    ensures { result ≡ ascribed_to sort kind }
{
    match sort {
        Some(sort) => ascribed_row(sort, kind),
        None => Row::Fails,
    }
}

pub(crate) fn ascribed_verdict(sort: Option<Sort>, part: Option<Typed>) -> Option<Verdict>
    ensures { result ≡ spec.ascribed_verdict sort part }
{
    match part {
        Some(part) => Some(verdict_at(part.depth, ascribed_to(sort, part.kind))),
        None => None,
    }
}

pub(crate) fn method_verdict(
    method: Option<Method>,
    receiver: Option<Typed>,
    arguments: Gathered,
) -> Option<Verdict>
    ensures { result ≡ spec.method_verdict method receiver arguments }
{
    match (receiver, arguments.kinds) {
        (Some(receiver), Some(kinds)) => {
            let row = method_row(method, receiver.kind, kinds);
            Some(deeper(receiver.depth.max(arguments.depth), 1, row))
        }
        _ => None,
    }
}

/// No arguments yet.
pub(crate) fn none_gathered() -> Gathered
    ensures { result ≡ spec.none_gathered }
{
    Gathered {
        kinds: Some(Arguments::None),
        depth: 0,
        count: 0,
    }
}

/// An argument more, before the others.
pub(crate) fn gathered_before(part: Option<Typed>, others: Gathered) -> Gathered
    requires { others.count + 1 < 2 ^ 64 }
    ensures { result ≡ spec.gathered_before part others }
{
    Gathered {
        kinds: kinds_before(part, others.kinds),
        depth: deepest(part, others.depth),
        count: others.count + 1,
    }
}

fn kinds_before(part: Option<Typed>, others: Option<Arguments>) -> Option<Arguments>
    ensures { result ≡ spec.kinds_before part others }
{
    match (part, others) {
        (Some(part), Some(others)) => Some(put_before(part.kind, others)),
        _ => None,
    }
}

fn deepest(part: Option<Typed>, depth: u32) -> u32
    ensures { result ≡ spec.deepest part depth }
{
    match part {
        Some(part) => part.depth.max(depth),
        None => depth,
    }
}
