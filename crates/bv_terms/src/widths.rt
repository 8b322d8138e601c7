//! The width at which each piece is read: what stands behind a bare numeral tells it, so the pieces are gone through backward.

ghost use Rattle.std.specs.Prelude.{◌≡◌, ◌+◌, ◌-◌, ◌<◌, ◌≤◌, length, Some, None, [], ◌∷◌, ◌++◌, IfOk};
ghost use Rattle.bv_typing.specs.Readings as readings;
ghost use Rattle.bv_typing.specs.Stacks.{popped, top, below};
ghost use Rattle.bv_terms.specs.Widths as spec;

use bv_grammar::Word;
use bv_trees::Piece;
use bv_typing::Note;
use std::alloc::{AllocError, Global};
use std::marker::Model;

/// A stack of widths.
///
/// Contracts see it as a list, the topmost first.
#[derive(Drop)]
pub(crate) struct Widths {
    stack: Vec<u8>,
}

impl Model for Widths {
    ghost use Rattle.std.specs.Prelude.{List, ℕ, reverse};

    ghost Value = { List ℕ };

    ghost view = { λ w. reverse w.stack.items };
}

impl Widths {
    fn new(alloc: Global) -> Widths
        ensures { result ≡ [] }
    {
        Widths {
            stack: Vec::new(alloc),
        }
    }

    fn push(&mut self, width: u8) -> Result<(), AllocError>
        ensures { IfOk result (λ _. self.new ≡ width ∷ self.old) }
    {
        self.stack.push(width)?;
        Ok(())
    }

    fn push_many(&mut self, number: usize, width: u8) -> Result<(), AllocError>
        ensures { IfOk result (λ _. self.new ≡ spec.many number width self.old) }
    {
        let mut left = number;
        while left > 0 {
            left -= 1;
            self.push(width)?;
        }
        Ok(())
    }

    fn pop(&mut self) -> Option<u8>
        ensures { (result, self.new) ≡ popped self.old }
    {
        self.stack.pop()
    }

    /// Takes the topmost width, or 0 where there is none.
    pub(crate) fn take(&mut self) -> u8
        ensures width { result ≡ top self.old }
        ensures left { self.new ≡ below self.old }
    {
        match self.pop() {
            Some(width) => width,
            None => 0,
        }
    }

    /// Puts what a piece that is read at this width tells its parts.
    fn tell(&mut self, piece: Piece, note: Note, width: u8) -> Result<(), AllocError>
        ensures { IfOk result (λ _. self.new ≡ spec.tell piece note width self.old) }
    {
        let told = told_or(width, note.width);
        match piece {
            Piece::Prefix(..) | Piece::Call(_) => self.push(width),
            Piece::Ascribed(..) => self.push(told),
            Piece::Infix(word, _) => {
                self.push(told)?;
                self.push(right_width(word, told))
            }
            Piece::Choice(_) => {
                self.push(width)?;
                self.push(told)?;
                self.push(told)
            }
            Piece::Method(_) => {
                self.push(width)?;
                self.push_many(note.arguments, told)
            }
            _ => Ok(()),
        }
    }
}

// A width that is told, or else the one at which the whole is read.
fn told_or(whole: u8, told: Option<u8>) -> u8
    ensures { result ≡ readings.told_or whole told }
{
    match told {
        Some(width) => width,
        None => whole,
    }
}

// Whether it is a shift.
pub(crate) fn is_shift(word: Word) -> bool
    ensures { result ≡ readings.is_shift word }
{
    match word {
        Word::ShiftLeft | Word::ShiftRight => true,
        _ => false,
    }
}

// The width of the right part: the amount of a shift has none of its own.
fn right_width(word: Word, told: u8) -> u8
    ensures { result ≡ readings.right_width word told }
{
    if is_shift(word) { 0 } else { told }
}

/// The widths of these pieces, that of the first one topmost, by what each tells its parts. Takes time by the number of pieces
/// and of methods' arguments.
pub(crate) fn find_widths(
    alloc: Global,
    pieces: &[Piece],
    notes: &[Note],
) -> Result<Widths, AllocError>
    requires { length pieces.now ≡ length notes.now }
    ensures { IfOk result (λ ws. ws ≡ spec.found pieces.now notes.now []) }
{
    let mut told = Widths::new(alloc);
    let mut found = Widths::new(alloc);
    let mut i = pieces.len();
    while i > 0 {
        i -= 1;
        let width = told.take();
        told.tell(pieces[i], notes[i], width)?;
        found.push(width)?;
    }
    Ok(found)
}
