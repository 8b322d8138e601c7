//! The limit on the depth of terms, from their pieces.

ghost use Rattle.std.specs.Prelude.{◌≡◌, ◌+◌, ◌<◌, IfOk, List, [], ◌∷◌, length, slice_get, max, Some};
ghost use Rattle.bv_trees.specs.Trees.{Tree};
ghost use Rattle.bv_trees.specs.Complete.{Holds};
ghost use Rattle.bv_limits.specs.Depths as depths;
ghost use Rattle.bv_limits.specs.Measuring as spec;
ghost use Rattle.bv_limits.specs.Deep.{IsFirstDeep};

use bv_grammar::Word;
use bv_trees::Piece;
use std::alloc::{AllocError, Global};
use std::marker::Model;

/// A depth of more than 1,001 is kept as this.
const DEEPEST: usize = 1001;

/// A part of a term, with its depth.
#[derive(Clone, Copy, Debug)]
pub(crate) enum Part {
    Term(usize),
    /// The receiver of a method whose arguments come.
    Receiver(usize),
}

/// The parts that aren't taken yet, the innermost last.
#[derive(Drop, Debug)]
pub(crate) struct Parts {
    waiting: Vec<Part>,
}

impl Model for Parts {
    ghost use Rattle.std.specs.Prelude.{List, reverse};
    ghost use Rattle.bv_limits.specs.declared.depths.Part.{Part};

    ghost Value = { List Part };

    ghost view = { λ p. reverse p.waiting.items };
}

/// The place of the first operator, method or `if` whose term is deeper than 1,000, of the terms whose pieces these are. What
/// is first is told by places alone. The error is want of memory alone. Takes time linear in the number of pieces, and nothing
/// recurses.
pub fn first_deep_term(alloc: Global, pieces: &[Piece]) -> Result<Option<usize>, AllocError>
    ensures { IfOk result (λ found. (xs : List Tree) → Holds pieces.now xs → IsFirstDeep xs found) }
{
    let found = least_deep(alloc, pieces)?;
    Ok(found)
}

/// The least place of a deep one, by these pieces.
pub(crate) fn least_deep(alloc: Global, pieces: &[Piece]) -> Result<Option<usize>, AllocError>
    ensures { IfOk result (λ found. found ≡ (spec.measure pieces.now spec.start).least) }
{
    let mut parts = Parts::new(alloc);
    let mut least = None;
    let mut at = 0;
    while at < pieces.len() {
        let piece = piece_at(pieces, at);
        parts.take(piece)?;
        least = note(place(piece), parts.top(), least);
        at += 1;
    }
    Ok(least)
}

fn piece_at(pieces: &[Piece], at: usize) -> Piece
    requires { at < length pieces.now }
    ensures { slice_get pieces.now at ≡ Some result }
{
    pieces[at]
}

impl Parts {
    fn new(alloc: Global) -> Parts
        ensures { result ≡ [] }
    {
        Parts {
            waiting: Vec::new(alloc),
        }
    }

    fn push(&mut self, part: Part) -> Result<(), AllocError>
        ensures { IfOk result (λ _. self.new ≡ part ∷ self.old) }
    {
        self.waiting.push(part)?;
        Ok(())
    }

    fn next(&mut self) -> Option<Part>
        ensures first { result ≡ spec.first self.old }
        ensures rest { self.new ≡ spec.rest self.old }
    {
        self.waiting.pop()
    }

    /// The depth of the innermost.
    fn top(&self) -> usize
        ensures { result ≡ spec.top self.now }
    {
        match self.waiting.last() {
            Some(part) => depth(*part),
            None => 0,
        }
    }

    /// Takes the innermost.
    fn pop(&mut self) -> usize
        ensures depth { result ≡ spec.top self.old }
        ensures rest { self.new ≡ spec.rest self.old }
    {
        match self.next() {
            Some(part) => depth(part),
            None => 0,
        }
    }

    /// Takes the arguments of a method, and its receiver.
    fn gather(&mut self) -> usize
        ensures depth { result ≡ spec.gathered 0 self.old }
        ensures rest { self.new ≡ spec.behind self.old }
    {
        let mut deepest = 0;
        while let Some(part) = self.next() {
            match part {
                Part::Term(depth) => deepest = larger(deepest, depth),
                Part::Receiver(depth) => return larger(deepest, depth),
            }
        }
        deepest
    }

    fn put(&mut self, depth: usize, added: usize) -> Result<(), AllocError>
        ensures { IfOk result (λ _. self.new ≡ spec.put (depth + added) self.old) }
    {
        self.push(Part::Term(grown(depth, added)))
    }

    /// What a piece does.
    fn take(&mut self, piece: Piece) -> Result<(), AllocError>
        ensures { IfOk result (λ _. self.new ≡ spec.step piece self.old) }
    {
        match piece {
            Piece::Name(_) | Piece::Numeral(_) | Piece::Literal(_, _) | Piece::Constant(_, _) => {
                self.put(1, 0)
            }
            Piece::Prefix(_, _) => {
                let operand = self.pop();
                self.put(operand, 1)
            }
            Piece::Infix(word, _) => {
                let right = self.pop();
                let left = self.pop();
                self.put(larger(left, right), added(word))
            }
            Piece::Choice(_) => {
                let otherwise = self.pop();
                let then = self.pop();
                let condition = self.pop();
                self.put(larger(condition, larger(then, otherwise)), 1)
            }
            Piece::Call(_) => {
                let receiver = self.pop();
                self.push(Part::Receiver(receiver))
            }
            Piece::Method(_) => {
                let deepest = self.gather();
                self.put(deepest, 1)
            }
            Piece::Ascribed(_, _) | Piece::Goal(_, _) => Ok(()),
            Piece::Variables(_, _, _) | Piece::Proof(_) => Ok(()),
        }
    }
}

fn depth(part: Part) -> usize
    ensures { result ≡ spec.depth_of part }
{
    match part {
        Part::Term(depth) | Part::Receiver(depth) => depth,
    }
}

fn larger(left: usize, right: usize) -> usize
    ensures { result ≡ max left right }
{
    left.max(right)
}

fn grown(depth: usize, added: usize) -> usize
    ensures { result ≡ spec.capped (depth + added) }
{
    depth.saturating_add(added).min(DEEPEST)
}

/// What an infix operator adds to the depth of its deeper part.
fn added(word: Word) -> usize
    ensures { result ≡ depths.added word }
{
    match word {
        Word::NotEqual | Word::BoolNotEqual => 2,
        _ => 1,
    }
}

/// The place of the operator, method or `if` that takes its parts.
fn place(piece: Piece) -> Option<usize>
    ensures { result ≡ spec.place_of piece }
{
    match piece {
        Piece::Prefix(_, at) | Piece::Infix(_, at) => Some(at),
        Piece::Choice(at) | Piece::Method(at) => Some(at),
        _ => None,
    }
}

/// One place more.
fn note(place: Option<usize>, depth: usize, least: Option<usize>) -> Option<usize>
    ensures { result ≡ spec.note place depth least }
{
    match place {
        Some(place) if depth > 1000 => Some(least_of(place, least)),
        _ => least,
    }
}

fn least_of(place: usize, least: Option<usize>) -> usize
    ensures { result ≡ spec.least_of place least }
{
    match least {
        Some(least) => place.min(least),
        None => place,
    }
}
