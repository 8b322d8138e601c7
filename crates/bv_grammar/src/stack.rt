//! The symbols that are open, on a stack, and what a step does with the first of them.

ghost use Rattle.std.specs.Prelude.{◌≡◌, ◌∷◌, [], ◌++◌, IfOk, IfSome, IfNone, IsTrue, ◌↔◌, List, map};
ghost use Rattle.bv_grammar.specs.Grammar.{Symbol, finish};
ghost use Rattle.bv_grammar.specs.Taking.{terms_open, waiting};
ghost use Rattle.bv_grammar.specs.Moves.{Moved, symbol_of, opened, took, took_word, waiting_before};

use crate::words::{Role, Word};
use std::alloc::{AllocError, Global};

/// A symbol that is open.
#[derive(Clone, Copy, Debug)]
pub(crate) enum Open {
    /// A terminal in its role.
    Terminal(Role),
    Items,
    Path,
    Dotted,
    Paths,
    Part,
    Binders,
    Names,
    BraceNames,
    Bound,
    Sort,
    Proof,
    Intro,
    Separator,
    Tactic,
    /// A term of this level.
    Term(u32),
    /// What goes on behind a part of the second level in a term of the first.
    Tail(u32, u32),
    Call,
    Methods,
    MoreMethods,
    Arguments,
    Dots,
    Atom,
    Literal,
    Closing,
}

/// What was done with a symbol.
#[derive(Clone, Copy, Debug)]
pub(crate) enum Step {
    /// It took the terminal in this role.
    Took(Role),
    /// It became nothing, before the terminal.
    Passed,
    /// It can't go on with the terminal.
    Failed,
}

/// The symbols that are open, the next one last.
#[derive(Drop, Debug)]
pub(crate) struct Stack {
    symbols: Vec<Open>,
    /// How many terms have begun and aren't complete.
    terms: usize,
    ghost counted: { terms ≡ terms_open (opened symbols.items []) },
}

impl Stack {
    pub(crate) fn new(alloc: Global) -> Stack
        ensures { result.symbols.items ≡ [] }
    {
        Stack {
            symbols: Vec::new(alloc),
            terms: 0,
        }
    }

    /// Puts a symbol on top.
    pub(crate) fn push(&mut self, symbol: Open) -> Result<(), AllocError>
        ensures { IfOk result (λ _. self.new.symbols.items ≡ self.old.symbols.items ++ symbol ∷ []) }
    {
        self.symbols.push(symbol)?;
        if let Open::Tail(_, _) = symbol {
            self.terms += 1;
        }
        Ok(())
    }

    /// Takes the next symbol.
    pub(crate) fn pop(&mut self) -> Option<Open>
        ensures some { IfSome result (λ symbol. self.old.symbols.items ≡ self.new.symbols.items ++ symbol ∷ []) }
        ensures none { IfNone result (self.old.symbols.items ≡ []) }
    {
        let symbol = self.symbols.pop()?;
        if let Open::Tail(_, _) = symbol {
            self.terms -= 1;
        }
        Some(symbol)
    }

    /// How many brackets, prefix operators, `if`s and infix operators wait for an operand.
    pub(crate) fn waiting(&self) -> usize
        ensures { result ≡ waiting (opened self.now.symbols.items (finish ∷ [])) }
    {
        waiting_before(self.terms, self.symbols.last().copied())
    }
}

/// How many wait where so many terms have begun and this symbol comes next.
fn waiting_before(terms: usize, next: Option<Open>) -> usize
    ensures { result ≡ waiting_before terms next }
{
    match next {
        Some(Open::Term(_)) => terms,
        _ => terms.saturating_sub(1),
    }
}

/// Puts symbols on the stack, the first one on top.
pub(crate) fn push_symbols(stack: &mut Stack, symbols: &[Open]) -> Result<(), AllocError>
    ensures { IfOk result (λ _. (a : List Symbol) → opened stack.new.symbols.items a ≡ map symbol_of symbols.now ++ opened stack.old.symbols.items a) }
{
    let mut left = symbols.len();
    while left > 0 {
        left -= 1;
        stack.push(symbols[left])?;
    }
    Ok(())
}

/// Takes the terminal in a role, the rest being open behind it.
pub(crate) fn take(stack: &mut Stack, role: Role, rest: &[Open]) -> Result<Step, AllocError>
    ensures { IfOk result (λ step. Moved (took role (map symbol_of rest.now)) step stack.old.symbols.items stack.new.symbols.items) }
{
    push_symbols(stack, rest)?;
    Ok(Step::Took(role))
}

/// Takes a word as itself.
pub(crate) fn take_word(stack: &mut Stack, word: Word, rest: &[Open]) -> Result<Step, AllocError>
    ensures { IfOk result (λ step. Moved (took_word word (map symbol_of rest.now)) step stack.old.symbols.items stack.new.symbols.items) }
{
    take(stack, Role::Word(word), rest)
}
