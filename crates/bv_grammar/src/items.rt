//! Items, paths, binders, sorts and proofs.

ghost use Rattle.std.specs.Prelude.{◌≡◌, IfOk};
ghost use Rattle.bv_grammar.specs.Moves.{Moved, items_move, part_move, path_move, dotted_move, is_part, paths_move, binders_move, names_move, brace_names_move, sort_move, proof_move, intro_move, separator_move, tactic_move};

use crate::stack::{Open, Stack, Step, push_symbols, take, take_word};
use crate::words::{Role, Terminal, Word};
use std::alloc::AllocError;

const COLON: Open = Open::Terminal(Role::Word(Word::Colon));

const ASSIGN: Open = Open::Terminal(Role::Word(Word::Assign));

const RIGHT_ROUND: Open = Open::Terminal(Role::Word(Word::RightRound));

const RIGHT_BRACE: Open = Open::Terminal(Role::Word(Word::RightBrace));

const BINDER: Open = Open::Terminal(Role::Binder);

const BRACE_BINDER: Open = Open::Terminal(Role::BraceBinder);

const WIDTH: Open = Open::Terminal(Role::Width);

const FILE: Open = Open::Terminal(Role::File);

pub(crate) fn items(stack: &mut Stack, next: Option<Terminal>) -> Result<Step, AllocError>
    ensures { IfOk result (λ step. Moved (items_move next) step stack.old.symbols.items stack.new.symbols.items) }
{
    let Some(Terminal::Word(word)) = next else {
        return Ok(Step::Passed);
    };
    match word {
        Word::Import => take_word(stack, word, &[Open::Path, Open::Items]),
        Word::Open => take_word(stack, word, &[Open::Path, Open::Paths, Open::Items]),
        Word::Theorem => {
            let rest = [
                Open::Path,
                Open::Binders,
                COLON,
                Open::Term(0),
                ASSIGN,
                Open::Proof,
                Open::Items,
            ];
            take_word(stack, word, &rest)
        }
        Word::Example => {
            let rest = [
                Open::Binders,
                COLON,
                Open::Term(0),
                ASSIGN,
                Open::Proof,
                Open::Items,
            ];
            take_word(stack, word, &rest)
        }
        _ => Ok(Step::Passed),
    }
}

pub(crate) fn part(stack: &mut Stack, next: Option<Terminal>) -> Result<Step, AllocError>
    ensures { IfOk result (λ step. Moved (part_move next) step stack.old.symbols.items stack.new.symbols.items) }
{
    match next {
        Some(Terminal::Name) => take(stack, Role::Part, &[]),
        Some(Terminal::Word(Word::Bool)) => take_word(stack, Word::Bool, &[]),
        Some(Terminal::Word(Word::BitVec)) => take_word(stack, Word::BitVec, &[]),
        _ => Ok(Step::Failed),
    }
}

pub(crate) fn path(stack: &mut Stack, next: Option<Terminal>) -> Result<Step, AllocError>
    ensures { IfOk result (λ step. Moved (path_move next) step stack.old.symbols.items stack.new.symbols.items) }
{
    push_symbols(stack, &[Open::Dotted])?;
    part(stack, next)
}

pub(crate) fn dotted(stack: &mut Stack, next: Option<Terminal>) -> Result<Step, AllocError>
    ensures { IfOk result (λ step. Moved (dotted_move next) step stack.old.symbols.items stack.new.symbols.items) }
{
    match next {
        Some(Terminal::Word(Word::Dot)) => {
            take_word(stack, Word::Dot, &[Open::Part, Open::Dotted])
        }
        _ => Ok(Step::Passed),
    }
}

pub(crate) fn paths(stack: &mut Stack, next: Option<Terminal>) -> Result<Step, AllocError>
    ensures { IfOk result (λ step. Moved (paths_move next) step stack.old.symbols.items stack.new.symbols.items) }
{
    if !begins_part(next) {
        return Ok(Step::Passed);
    }
    push_symbols(stack, &[Open::Paths])?;
    path(stack, next)
}

/// Whether the terminal begins a part of a path.
fn begins_part(next: Option<Terminal>) -> bool
    ensures { result ≡ is_part next }
{
    match next {
        Some(Terminal::Name) => true,
        Some(Terminal::Word(Word::Bool | Word::BitVec)) => true,
        _ => false,
    }
}

pub(crate) fn binders(stack: &mut Stack, next: Option<Terminal>) -> Result<Step, AllocError>
    ensures { IfOk result (λ step. Moved (binders_move next) step stack.old.symbols.items stack.new.symbols.items) }
{
    match next {
        Some(Terminal::Word(Word::LeftRound)) => {
            let rest = [
                BINDER,
                Open::Names,
                COLON,
                Open::Bound,
                RIGHT_ROUND,
                Open::Binders,
            ];
            take_word(stack, Word::LeftRound, &rest)
        }
        Some(Terminal::Word(Word::LeftBrace)) => {
            let rest = [
                BRACE_BINDER,
                Open::BraceNames,
                COLON,
                Open::Sort,
                RIGHT_BRACE,
                Open::Binders,
            ];
            take_word(stack, Word::LeftBrace, &rest)
        }
        _ => Ok(Step::Passed),
    }
}

pub(crate) fn names(stack: &mut Stack, next: Option<Terminal>) -> Result<Step, AllocError>
    ensures { IfOk result (λ step. Moved (names_move next) step stack.old.symbols.items stack.new.symbols.items) }
{
    match next {
        Some(Terminal::Name) => take(stack, Role::Binder, &[Open::Names]),
        _ => Ok(Step::Passed),
    }
}

pub(crate) fn brace_names(stack: &mut Stack, next: Option<Terminal>) -> Result<Step, AllocError>
    ensures { IfOk result (λ step. Moved (brace_names_move next) step stack.old.symbols.items stack.new.symbols.items) }
{
    match next {
        Some(Terminal::Name) => take(stack, Role::BraceBinder, &[Open::BraceNames]),
        _ => Ok(Step::Passed),
    }
}

pub(crate) fn sort(stack: &mut Stack, next: Option<Terminal>) -> Result<Step, AllocError>
    ensures { IfOk result (λ step. Moved (sort_move next) step stack.old.symbols.items stack.new.symbols.items) }
{
    match next {
        Some(Terminal::Word(Word::Bool)) => take_word(stack, Word::Bool, &[]),
        Some(Terminal::Word(Word::BitVec)) => take_word(stack, Word::BitVec, &[WIDTH]),
        _ => Ok(Step::Failed),
    }
}

pub(crate) fn proof(stack: &mut Stack, next: Option<Terminal>) -> Result<Step, AllocError>
    ensures { IfOk result (λ step. Moved (proof_move next) step stack.old.symbols.items stack.new.symbols.items) }
{
    match next {
        Some(Terminal::Word(Word::By)) => {
            take_word(stack, Word::By, &[Open::Intro, Open::Tactic])
        }
        _ => Ok(Step::Failed),
    }
}

pub(crate) fn intro(stack: &mut Stack, next: Option<Terminal>) -> Result<Step, AllocError>
    ensures { IfOk result (λ step. Moved (intro_move next) step stack.old.symbols.items stack.new.symbols.items) }
{
    match next {
        Some(Terminal::Word(Word::Intros)) => { take_word(stack, Word::Intros, &[Open::Separator]) }
        _ => Ok(Step::Passed),
    }
}

pub(crate) fn separator(stack: &mut Stack, next: Option<Terminal>) -> Result<Step, AllocError>
    ensures { IfOk result (λ step. Moved (separator_move next) step stack.old.symbols.items stack.new.symbols.items) }
{
    match next {
        Some(Terminal::Word(Word::Semicolon)) => take_word(stack, Word::Semicolon, &[]),
        _ => Ok(Step::Passed),
    }
}

pub(crate) fn tactic(stack: &mut Stack, next: Option<Terminal>) -> Result<Step, AllocError>
    ensures { IfOk result (λ step. Moved (tactic_move next) step stack.old.symbols.items stack.new.symbols.items) }
{
    match next {
        Some(Terminal::Word(Word::Decide)) => take_word(stack, Word::Decide, &[]),
        Some(Terminal::Word(Word::Check)) => take_word(stack, Word::Check, &[FILE]),
        _ => Ok(Step::Failed),
    }
}
