//! The pieces of a file, put together from what its terminals are taken as.

ghost use Rattle.std.specs.Prelude.{◌≡◌, ◌+◌, ◌-◌, ◌<◌, ◌^◌, OnOk, length, Some, None, [], ◌∷◌, ◌++◌, IfOk};
ghost use Rattle.bv_trees.specs.Building as spec;
ghost use Rattle.bv_trees.specs.Building.{Building};

use crate::pieces::{Piece, Sort};
use bv_grammar::{Role, Taken, Word};
use std::alloc::{AllocError, Global};
use std::marker::Model;

/// What waits for an operand.
#[derive(Clone, Copy, Debug)]
pub(crate) enum Frame {
    Prefix(Word, usize),
    Infix(Word, usize),
    /// An `if`, before its last part.
    Choice(usize),
    /// An `if` in its last part.
    Otherwise(usize),
    /// A bracket, with the method that has it as an argument.
    Bracket(Option<usize>),
}

/// What waits, the innermost last.
#[derive(Drop, Debug)]
pub(crate) struct Frames {
    waiting: Vec<Frame>,
}

impl Model for Frames {
    ghost use Rattle.std.specs.Prelude.{List, reverse};
    ghost use Rattle.bv_trees.specs.declared.building.Frame.{Frame};

    ghost Value = { List Frame };

    ghost view = { λ f. reverse f.waiting.items };
}

impl Frames {
    fn new(alloc: Global) -> Frames
        ensures { result ≡ [] }
    {
        Frames {
            waiting: Vec::new(alloc),
        }
    }

    fn push(&mut self, frame: Frame) -> Result<(), AllocError>
        ensures { IfOk result (λ _. self.new ≡ frame ∷ self.old) }
    {
        self.waiting.push(frame)?;
        Ok(())
    }

    fn pop(&mut self) -> Option<Frame>
        ensures { (result, self.new) ≡ spec.popped self.old }
    {
        self.waiting.pop()
    }

    fn len(&self) -> usize
        ensures { result ≡ length self.now }
    {
        self.waiting.len()
    }

    /// The last part of an `if` begins.
    fn otherwise(&mut self) -> Result<(), AllocError>
        ensures { IfOk result (λ _. self.new ≡ spec.otherwise self.old) }
    {
        match self.pop() {
            Some(Frame::Choice(at)) => self.push(Frame::Otherwise(at)),
            Some(frame) => self.push(frame),
            None => Ok(()),
        }
    }

    /// Whether the innermost has its operands where a term ends.
    fn is_left(&self) -> bool
        ensures { result ≡ spec.is_left self.now }
    {
        match self.waiting.last() {
            Some(frame) => leaves(*frame),
            None => false,
        }
    }
}

/// A file whose pieces are put together.
#[derive(Drop, Debug)]
pub(crate) struct Builder {
    frames: Frames,
    /// The method whose arguments are read.
    method: Option<usize>,
    /// The head of a goal whose name is read.
    goal: Option<usize>,
    /// Where the names of a binder begin.
    names: usize,
    pieces: Vec<Piece>,
}

impl Model for Builder {
    ghost use Rattle.bv_trees.specs.Building.{Building};

    ghost Value = { Building };

    ghost view = { λ b. record { frames = b.frames; method = b.method; goal = b.goal; names = b.names; pieces = b.pieces.items } };
}

impl Builder {
    pub(crate) fn new(alloc: Global) -> Builder
        ensures { result ≡ spec.start }
    {
        Builder {
            frames: Frames::new(alloc),
            method: None,
            goal: None,
            names: 0,
            pieces: Vec::new(alloc),
        }
    }

    /// The pieces.
    pub(crate) fn into_pieces(self) -> Vec<Piece>
        ensures { result.items ≡ self.pieces }
    {
        self.pieces
    }

    /// Takes the terminal at a place, in its role, before what stands behind it.
    pub(crate) fn take(
        &mut self,
        at: usize,
        taken: Taken,
        next: Option<Role>,
    ) -> Result<(), AllocError>
        requires { at + 2 < 2 ^ 64 }
        ensures { IfOk result (λ _. self.new ≡ spec.on_role at taken.role taken.waiting next self.old) }
    {
        match taken.role {
            Role::Variable => self.put(Piece::Name(at)),
            Role::Numeral => self.put(number(at, next)),
            Role::Constant(word) => self.put(Piece::Constant(word, at)),
            Role::Prefix(word) => self.wait(Frame::Prefix(word, at)),
            Role::Infix(word) => {
                self.complete(taken.waiting.saturating_sub(1))?;
                self.wait(Frame::Infix(word, at))
            }
            Role::Bracket => {
                let method = self.method;
                self.wait(Frame::Bracket(method))
            }
            Role::Ascription => self.ascribe(at, taken.waiting, next),
            Role::Method => self.call(at),
            Role::File => self.put(Piece::Proof(Some(at))),
            Role::Word(word) => self.word(at, word, taken.waiting, next),
            Role::Part | Role::Binder | Role::BraceBinder | Role::Width => Ok(()),
        }
    }

    fn word(
        &mut self,
        at: usize,
        word: Word,
        waiting: usize,
        next: Option<Role>,
    ) -> Result<(), AllocError>
        requires { at + 2 < 2 ^ 64 }
        ensures { IfOk result (λ _. self.new ≡ spec.on_word at word waiting next self.old) }
    {
        match word {
            Word::If => self.wait(Frame::Choice(at)),
            Word::Then | Word::Assign => self.complete(waiting),
            Word::Else => {
                self.complete(waiting)?;
                self.frames.otherwise()
            }
            Word::RightRound => {
                let number = self.frames.len().saturating_sub(waiting);
                self.settle(number)
            }
            Word::Dot => self.point(at),
            Word::Theorem | Word::Example => {
                self.goal = Some(at);
                Ok(())
            }
            Word::LeftRound | Word::LeftBrace => self.binder(at),
            Word::Colon => self.colon(at, next),
            Word::Decide => self.put(Piece::Proof(None)),
            _ => Ok(()),
        }
    }

    fn put(&mut self, piece: Piece) -> Result<(), AllocError>
        ensures { IfOk result (λ _. self.new ≡ spec.put piece self.old) }
    {
        self.pieces.push(piece)?;
        Ok(())
    }

    fn wait(&mut self, frame: Frame) -> Result<(), AllocError>
        ensures { IfOk result (λ _. self.new ≡ spec.wait frame self.old) }
    {
        self.frames.push(frame)?;
        self.method = None;
        Ok(())
    }

    /// The arguments of the method have ended.
    fn close(&mut self) -> Result<(), AllocError>
        ensures { IfOk result (λ _. self.new ≡ spec.close self.old) }
    {
        if let Some(method) = self.method {
            self.pieces.push(Piece::Method(method))?;
            self.method = None;
        }
        Ok(())
    }

    /// The innermost that waits has its operands.
    fn leave(&mut self) -> Result<(), AllocError>
        ensures { IfOk result (λ _. self.new ≡ spec.leave self.old) }
    {
        self.close()?;
        match self.frames.pop() {
            Some(Frame::Prefix(word, at)) => self.put(Piece::Prefix(word, at)),
            Some(Frame::Infix(word, at)) => self.put(Piece::Infix(word, at)),
            Some(Frame::Choice(at) | Frame::Otherwise(at)) => self.put(Piece::Choice(at)),
            Some(Frame::Bracket(method)) => {
                self.method = method;
                Ok(())
            }
            None => Ok(()),
        }
    }

    /// So many have.
    fn settle(&mut self, number: usize) -> Result<(), AllocError>
        ensures { IfOk result (λ _. self.new ≡ spec.settle number self.old) }
    {
        let mut left = number;
        while left > 0 {
            left -= 1;
            self.leave()?;
        }
        Ok(())
    }

    /// As many of the innermost have as do where a term ends.
    fn leave_front(&mut self) -> Result<(), AllocError>
        ensures { IfOk result (λ _. self.new ≡ spec.settle (spec.front self.old.frames) self.old) }
    {
        while self.frames.is_left() {
            self.leave()?;
        }
        Ok(())
    }

    /// What is reached ends behind this role.
    pub(crate) fn end(&mut self, last: Option<Role>) -> Result<(), AllocError>
        ensures { IfOk result (λ _. self.new ≡ spec.ended last self.old) }
    {
        if is_open(last) {
            return Ok(());
        }
        self.leave_front()?;
        self.close()
    }

    /// All but so many have, and the arguments of a method have ended.
    fn complete(&mut self, keep: usize) -> Result<(), AllocError>
        ensures { IfOk result (λ _. self.new ≡ spec.complete keep self.old) }
    {
        let number = self.frames.len().saturating_sub(keep);
        self.settle(number)?;
        self.close()
    }

    /// A term in brackets has ended before its sort.
    fn ascribe(&mut self, at: usize, waiting: usize, next: Option<Role>) -> Result<(), AllocError>
        requires { at + 2 < 2 ^ 64 }
        ensures { IfOk result (λ _. self.new ≡ spec.ascribe at (spec.sort_behind at next) (spec.complete (waiting + 1) self.old)) }
    {
        let number = self.frames.len().saturating_sub(waiting).saturating_sub(1);
        self.settle(number)?;
        self.close()?;
        match sort_behind(at, next) {
            Some(sort) => self.put(Piece::Ascribed(at, sort)),
            None => Ok(()),
        }
    }

    /// A method's name: its arguments follow, unless it is a method of an argument.
    fn call(&mut self, at: usize) -> Result<(), AllocError>
        ensures { IfOk result (λ _. self.new ≡ spec.call at self.old.method self.old) }
    {
        self.pieces.push(Piece::Call(at))?;
        match self.method {
            None => {
                self.method = Some(at);
                Ok(())
            }
            Some(_) => self.put(Piece::Method(at)),
        }
    }

    /// A point right behind the name of a method ends that method's arguments.
    fn point(&mut self, at: usize) -> Result<(), AllocError>
        ensures { IfOk result (λ _. self.new ≡ spec.point at self.old.method self.old) }
    {
        match self.method {
            Some(method) if at > method && at - method == 1 => self.close(),
            _ => Ok(()),
        }
    }

    /// The name of a goal has ended.
    fn head_ends(&mut self, at: usize) -> Result<(), AllocError>
        ensures { IfOk result (λ _. self.new ≡ spec.head_ends at self.old) }
    {
        if let Some(head) = self.goal {
            self.pieces.push(Piece::Goal(head, at))?;
            self.goal = None;
        }
        Ok(())
    }

    /// A binder begins.
    fn binder(&mut self, at: usize) -> Result<(), AllocError>
        requires { at + 2 < 2 ^ 64 }
        ensures { IfOk result (λ _. self.new ≡ record (spec.head_ends at (spec.close self.old)) { names = at + 1 }) }
    {
        self.close()?;
        self.head_ends(at)?;
        self.names = at + 1;
        Ok(())
    }

    /// What a binder's names are bound to begins, or the conclusion.
    fn colon(&mut self, at: usize, next: Option<Role>) -> Result<(), AllocError>
        requires { at + 2 < 2 ^ 64 }
        ensures { IfOk result (λ _. self.new ≡ spec.bind at (spec.sort_behind at next) (spec.head_ends at (spec.close self.old))) }
    {
        self.close()?;
        self.head_ends(at)?;
        match sort_behind(at, next) {
            Some(sort) => {
                let names = self.names;
                self.put(Piece::Variables(names, at, sort))
            }
            None => Ok(()),
        }
    }
}

/// A numeral, before what stands behind it.
fn number(at: usize, next: Option<Role>) -> Piece
    requires { at + 2 < 2 ^ 64 }
    ensures { result ≡ spec.number at next }
{
    match next {
        Some(Role::Word(Word::Hash)) => Piece::Literal(at, at + 2),
        _ => Piece::Numeral(at),
    }
}

/// The sort behind a colon.
fn sort_behind(at: usize, next: Option<Role>) -> Option<Sort>
    requires { at + 2 < 2 ^ 64 }
    ensures { result ≡ spec.sort_behind at next }
{
    match next {
        Some(Role::Word(Word::Bool)) => Some(Sort::Truth),
        Some(Role::Word(Word::BitVec)) => Some(Sort::Vector(at + 2)),
        _ => None,
    }
}

/// Whether what waits has its operands where a term ends.
fn leaves(frame: Frame) -> bool
    ensures { result ≡ spec.leaves frame }
{
    match frame {
        Frame::Prefix(_, _) | Frame::Infix(_, _) | Frame::Otherwise(_) => true,
        Frame::Choice(_) | Frame::Bracket(_) => false,
    }
}

/// Whether a term isn't complete behind this.
fn is_open(last: Option<Role>) -> bool
    ensures { result ≡ spec.is_open last }
{
    match last {
        Some(Role::Prefix(_) | Role::Infix(_)) => true,
        Some(Role::Word(Word::Else | Word::Dot | Word::Hash)) => true,
        _ => false,
    }
}
