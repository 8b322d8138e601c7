//! Terms, calls and atoms.

ghost use Rattle.std.specs.Prelude.{◌≡◌, IfOk};
ghost use Rattle.bv_grammar.specs.Operators.{prefix_level, when_fits, fixity_of};
ghost use Rattle.bv_grammar.specs.Moves.{Moved, term_move, operand_move, is_sort, bound_move, tail_move, call_move, methods_move, is_dot, more_methods_move, arguments_move, dots_move, atom_move, constant_move, is_atom, literal_move, closing_move};

use crate::items::sort;
use crate::stack::{Open, Stack, Step, push_symbols, take, take_word};
use crate::words::{Fixity, Role, Terminal, Word};
use std::alloc::AllocError;

/// The level of a call.
const CALL_LEVEL: u32 = 1024;

const THEN: Open = Open::Terminal(Role::Word(Word::Then));

const ELSE: Open = Open::Terminal(Role::Word(Word::Else));

const RIGHT_ROUND: Open = Open::Terminal(Role::Word(Word::RightRound));

const METHOD: Open = Open::Terminal(Role::Method);

const WIDTH: Open = Open::Terminal(Role::Width);

pub(crate) fn bound(stack: &mut Stack, next: Option<Terminal>) -> Result<Step, AllocError>
    ensures { IfOk result (λ step. Moved (bound_move next) step stack.old.symbols.items stack.new.symbols.items) }
{
    if begins_sort(next) {
        sort(stack, next)
    } else {
        term(stack, 0, next)
    }
}

/// Whether the terminal begins a sort.
fn begins_sort(next: Option<Terminal>) -> bool
    ensures { result ≡ is_sort next }
{
    match next {
        Some(Terminal::Word(Word::Bool | Word::BitVec)) => true,
        _ => false,
    }
}

pub(crate) fn term(
    stack: &mut Stack,
    level: u32,
    next: Option<Terminal>,
) -> Result<Step, AllocError>
    ensures { IfOk result (λ step. Moved (term_move level next) step stack.old.symbols.items stack.new.symbols.items) }
{
    match next {
        Some(Terminal::Word(Word::If)) => {
            let rest = [
                Open::Term(0),
                THEN,
                Open::Term(0),
                ELSE,
                Open::Term(0),
                Open::Tail(level, 0),
            ];
            take_word(stack, Word::If, &rest)
        }
        Some(Terminal::Word(word)) => operand(stack, level, word),
        _ => {
            push_symbols(stack, &[Open::Tail(level, CALL_LEVEL)])?;
            call(stack, next)
        }
    }
}

/// An operand that begins with this word, which isn't `if`.
fn operand(stack: &mut Stack, level: u32, word: Word) -> Result<Step, AllocError>
    ensures { IfOk result (λ step. Moved (operand_move level word (prefix_level word)) step stack.old.symbols.items stack.new.symbols.items) }
{
    match word.prefix_level() {
        Some(inner) => {
            let rest = [Open::Term(inner), Open::Tail(level, inner)];
            take(stack, Role::Prefix(word), &rest)
        }
        None => {
            push_symbols(stack, &[Open::Tail(level, CALL_LEVEL)])?;
            call(stack, Some(Terminal::Word(word)))
        }
    }
}

pub(crate) fn tail(
    stack: &mut Stack,
    level: u32,
    left: u32,
    next: Option<Terminal>,
) -> Result<Step, AllocError>
    ensures { IfOk result (λ step. Moved (tail_move level left next) step stack.old.symbols.items stack.new.symbols.items) }
{
    let Some(Terminal::Word(word)) = next else {
        return Ok(Step::Passed);
    };
    match fitting(level, left, word) {
        Some(operator) => {
            let rest = [
                Open::Term(operator.right),
                Open::Tail(level, operator.level),
            ];
            take(stack, Role::Infix(word), &rest)
        }
        None => Ok(Step::Passed),
    }
}

/// The infix operator with which a term of a level goes on behind a part of the level `left`.
fn fitting(level: u32, left: u32, word: Word) -> Option<Fixity>
    ensures { result ≡ when_fits level left (fixity_of word) }
{
    match word.fixity() {
        Some(operator) if level <= operator.level && operator.left <= left => Some(operator),
        _ => None,
    }
}

pub(crate) fn call(stack: &mut Stack, next: Option<Terminal>) -> Result<Step, AllocError>
    ensures { IfOk result (λ step. Moved (call_move next) step stack.old.symbols.items stack.new.symbols.items) }
{
    push_symbols(stack, &[Open::Methods])?;
    atom(stack, next)
}

pub(crate) fn methods(stack: &mut Stack, next: Option<Terminal>) -> Result<Step, AllocError>
    ensures { IfOk result (λ step. Moved (methods_move next) step stack.old.symbols.items stack.new.symbols.items) }
{
    match next {
        Some(Terminal::Word(Word::Dot)) => {
            take_word(stack, Word::Dot, &[METHOD, Open::MoreMethods])
        }
        _ => Ok(Step::Passed),
    }
}

pub(crate) fn more_methods(stack: &mut Stack, next: Option<Terminal>) -> Result<Step, AllocError>
    ensures { IfOk result (λ step. Moved (more_methods_move next) step stack.old.symbols.items stack.new.symbols.items) }
{
    if is_dot(next) {
        take_word(stack, Word::Dot, &[METHOD, Open::MoreMethods])
    } else {
        arguments(stack, next)
    }
}

fn is_dot(next: Option<Terminal>) -> bool
    ensures { result ≡ is_dot next }
{
    match next {
        Some(Terminal::Word(Word::Dot)) => true,
        _ => false,
    }
}

pub(crate) fn arguments(stack: &mut Stack, next: Option<Terminal>) -> Result<Step, AllocError>
    ensures { IfOk result (λ step. Moved (arguments_move next) step stack.old.symbols.items stack.new.symbols.items) }
{
    if !begins_atom(next) {
        return Ok(Step::Passed);
    }
    push_symbols(stack, &[Open::Dots, Open::Arguments])?;
    atom(stack, next)
}

pub(crate) fn dots(stack: &mut Stack, next: Option<Terminal>) -> Result<Step, AllocError>
    ensures { IfOk result (λ step. Moved (dots_move next) step stack.old.symbols.items stack.new.symbols.items) }
{
    match next {
        Some(Terminal::Word(Word::Dot)) => take_word(stack, Word::Dot, &[METHOD, Open::Dots]),
        _ => Ok(Step::Passed),
    }
}

pub(crate) fn atom(stack: &mut Stack, next: Option<Terminal>) -> Result<Step, AllocError>
    ensures { IfOk result (λ step. Moved (atom_move next) step stack.old.symbols.items stack.new.symbols.items) }
{
    match next {
        Some(Terminal::Name) => take(stack, Role::Variable, &[]),
        Some(Terminal::Numeral) => take(stack, Role::Numeral, &[Open::Literal]),
        Some(Terminal::Word(Word::LeftRound)) => {
            take(stack, Role::Bracket, &[Open::Term(0), Open::Closing])
        }
        Some(Terminal::Word(word)) => constant(stack, word),
        _ => Ok(Step::Failed),
    }
}

/// A constant.
fn constant(stack: &mut Stack, word: Word) -> Result<Step, AllocError>
    ensures { IfOk result (λ step. Moved (constant_move word) step stack.old.symbols.items stack.new.symbols.items) }
{
    match word {
        Word::True | Word::False | Word::TrueProposition | Word::FalseProposition => {
            take(stack, Role::Constant(word), &[])
        }
        _ => Ok(Step::Failed),
    }
}

/// Whether the terminal begins an atom.
fn begins_atom(next: Option<Terminal>) -> bool
    ensures { result ≡ is_atom next }
{
    match next {
        Some(Terminal::Name | Terminal::Numeral) => true,
        Some(Terminal::Word(Word::True | Word::False)) => true,
        Some(Terminal::Word(Word::TrueProposition | Word::FalseProposition)) => true,
        Some(Terminal::Word(Word::LeftRound)) => true,
        _ => false,
    }
}

pub(crate) fn literal(stack: &mut Stack, next: Option<Terminal>) -> Result<Step, AllocError>
    ensures { IfOk result (λ step. Moved (literal_move next) step stack.old.symbols.items stack.new.symbols.items) }
{
    match next {
        Some(Terminal::Word(Word::Hash)) => take_word(stack, Word::Hash, &[WIDTH]),
        _ => Ok(Step::Passed),
    }
}

pub(crate) fn closing(stack: &mut Stack, next: Option<Terminal>) -> Result<Step, AllocError>
    ensures { IfOk result (λ step. Moved (closing_move next) step stack.old.symbols.items stack.new.symbols.items) }
{
    match next {
        Some(Terminal::Word(Word::RightRound)) => take_word(stack, Word::RightRound, &[]),
        Some(Terminal::Word(Word::Colon)) => {
            take(stack, Role::Ascription, &[Open::Sort, RIGHT_ROUND])
        }
        _ => Ok(Step::Failed),
    }
}
