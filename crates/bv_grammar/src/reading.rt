//! The reading of a file's terminals.

ghost use Rattle.std.specs.Prelude.{◌≡◌, ◌↔◌, ◌<◌, ◌≤◌, IfOk, IsTrue, slice_get, vec_len};
ghost use Rattle.bv_grammar.specs.Taking.{AreTaken, EndsAt};
ghost use Rattle.bv_grammar.specs.Moves.{Expected, Stepped};

use crate::stack::{Open, Stack, Step};
use crate::words::{Role, Terminal, Word};
use crate::{items, terms};
use std::alloc::{AllocError, Global};

/// A terminal that was reached.
#[derive(Clone, Copy, Debug, PartialEq, Eq)]
pub struct Taken {
    /// What it was taken as.
    pub role: Role,
    /// How many brackets, prefix operators, `if`s and infix operators then wait for an operand that isn't complete. An `if`
    /// counts once, whichever of its parts is open; a binder's bracket and a method don't count.
    pub waiting: usize,
}

/// How a reading ends.
#[derive(Clone, Copy, Debug, PartialEq, Eq)]
pub enum End {
    /// The file is derived, and all terminals are taken.
    Whole,
    /// No partial derivation reaches the terminal behind those that were taken, or the end where there is none.
    Fault,
}

/// What was read of a file.
#[derive(Drop, Debug)]
pub struct Reading {
    /// The terminals that were reached, in order.
    pub taken: Vec<Taken>,
    /// Whether the file is derived whole, or a syntax fault stands behind them.
    pub end: End,
}

/// Reads the terminals of a file up to its end or its syntax fault. The error is want of memory alone. The time is
/// linear in the number of terminals, and nothing recurses.
pub fn read(alloc: Global, terminals: &[Terminal]) -> Result<Reading, AllocError>
    ensures taken { IfOk result (λ r. AreTaken terminals.now r.taken.items) }
    ensures end { IfOk result (λ r. EndsAt terminals.now (vec_len r.taken) r.end) }
{
    let mut stack = Stack::new(alloc);
    stack.push(Open::Items)?;
    let mut taken = Vec::new(alloc);
    while let Some(symbol) = stack.pop() {
        let next = terminal_at(terminals, taken.len());
        match step(&mut stack, symbol, next)? {
            Step::Took(role) => {
                let waiting = stack.waiting();
                taken.push(Taken { role, waiting })?;
            }
            Step::Passed => {}
            Step::Failed => return Ok(faulty(taken)),
        }
    }
    Ok(ended(taken, terminals.len()))
}

/// The terminal at a place, or none at the end.
fn terminal_at(terminals: &[Terminal], at: usize) -> Option<Terminal>
    ensures { result ≡ slice_get terminals.now at }
{
    terminals.get(at).copied()
}

/// A reading that ends at a fault.
fn faulty(taken: Vec<Taken>) -> Reading
    ensures taken { result.taken.items ≡ taken.items }
    ensures end { result.end ≡ End.Fault }
{
    let end = End::Fault;
    Reading { taken, end }
}

/// A reading behind which nothing more may stand.
fn ended(taken: Vec<Taken>, length: usize) -> Reading
    ensures taken { result.taken.items ≡ taken.items }
    ensures more { vec_len taken < length → result.end ≡ End.Fault }
    ensures whole { length ≤ vec_len taken → result.end ≡ End.Whole }
{
    let end = if taken.len() < length {
        End::Fault
    } else {
        End::Whole
    };
    Reading { taken, end }
}

/// What the next symbol does before a terminal or the end.
fn step(stack: &mut Stack, symbol: Open, next: Option<Terminal>) -> Result<Step, AllocError>
    ensures { IfOk result (λ step. Stepped symbol next step stack.old.symbols.items stack.new.symbols.items) }
{
    match symbol {
        Open::Terminal(role) => Ok(expected(role, next)),
        Open::Items => items::items(stack, next),
        Open::Path => items::path(stack, next),
        Open::Dotted => items::dotted(stack, next),
        Open::Paths => items::paths(stack, next),
        Open::Part => items::part(stack, next),
        Open::Binders => items::binders(stack, next),
        Open::Names => items::names(stack, next),
        Open::BraceNames => items::brace_names(stack, next),
        Open::Bound => terms::bound(stack, next),
        Open::Sort => items::sort(stack, next),
        Open::Proof => items::proof(stack, next),
        Open::Intro => items::intro(stack, next),
        Open::Separator => items::separator(stack, next),
        Open::Tactic => items::tactic(stack, next),
        Open::Term(level) => terms::term(stack, level, next),
        Open::Tail(level, left) => terms::tail(stack, level, left, next),
        Open::Call => terms::call(stack, next),
        Open::Methods => terms::methods(stack, next),
        Open::MoreMethods => terms::more_methods(stack, next),
        Open::Arguments => terms::arguments(stack, next),
        Open::Dots => terms::dots(stack, next),
        Open::Atom => terms::atom(stack, next),
        Open::Literal => terms::literal(stack, next),
        Open::Closing => terms::closing(stack, next),
    }
}

/// Whether the terminal is the one that is open.
fn expected(role: Role, next: Option<Terminal>) -> Step
    ensures { Expected role next result }
{
    match next {
        Some(terminal) if is_same(terminal, role.terminal()) => Step::Took(role),
        _ => Step::Failed,
    }
}

fn is_same(left: Terminal, right: Terminal) -> bool
    ensures { IsTrue result ↔ (left ≡ right) }
{
    match (left, right) {
        (Terminal::Name, Terminal::Name) => true,
        (Terminal::Numeral, Terminal::Numeral) => true,
        (Terminal::Text, Terminal::Text) => true,
        (Terminal::Word(left), Terminal::Word(right)) => is_same_word(left, right),
        _ => false,
    }
}

fn is_same_word(left: Word, right: Word) -> bool
    ensures { IsTrue result ↔ (left ≡ right) }
{
    left == right
}
