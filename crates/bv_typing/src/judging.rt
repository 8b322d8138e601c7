//! How the types of a goal's terms are judged: by one walk over its pieces, with a stack of the terms that are complete.

ghost use Rattle.std.specs.Prelude.{◌≡◌, ◌∷◌, [], IfOk, length, None};
ghost use Rattle.bv_trees.specs.Codes.{goal_pieces};
ghost use Rattle.bv_trees.specs.Trees.{Goal};
ghost use Rattle.bv_typing.specs.Faults.{bindings_in};
ghost use Rattle.bv_typing.specs.Goals.{goal_misfits, least};
ghost use Rattle.bv_typing.specs.Notes.{goal_notes};
ghost use Rattle.bv_typing.specs.Readings.{name_row};
ghost use Rattle.bv_typing.specs.Stacks as stacks;
ghost use Rattle.bv_typing.specs.Verdicts.{none_gathered};
ghost use Rattle.bv_typing.specs.Judging as spec;
ghost use Rattle.bv_typing.specs.Judging.{env_at};

use crate::kind::{Kind, Row};
use crate::method::Method;
use crate::methods::method_of;
use crate::misfit::{Misfit, earliest, own_misfit, truth_misfit};
use crate::note::Note;
use crate::rows::sorted;
use crate::sorts::vectors;
use crate::source::File;
use crate::telling::{either, infix_width, nothing, tells, width_for, width_in, width_of_sort};
use crate::variables::{Binding, binding_misfit, bindings_of, sort_at, variable_at};
use crate::verdicts::{
    Gathered, Typed, Verdict, ascribed_verdict, choice_verdict, gathered_before, infix_verdict,
    method_verdict, none_gathered, prefix_verdict, verdict_at,
};
use bv_expr::Sort;
use bv_grammar::Word;
use bv_trees::{Piece, Sort as Written};
use std::alloc::{AllocError, Global};
use std::marker::Model;

/// A term that is complete.
#[derive(Clone, Copy, Debug, PartialEq, Eq)]
pub(crate) struct Part {
    /// Its kind and depth, where it is typed.
    pub typed: Option<Typed>,
    /// The place of its outermost node, brackets and ascriptions aside.
    pub outermost: usize,
}

const UNTYPED: Part = Part {
    typed: None,
    outermost: 0,
};

/// A term that is complete, or a method whose arguments are read.
#[derive(Clone, Copy, Debug, PartialEq, Eq)]
pub(crate) enum Slot {
    Term(Part),
    Call,
}

/// The stack, the last one last.
#[derive(Drop, Debug)]
pub(crate) struct Slots {
    stack: Vec<Slot>,
}

impl Model for Slots {
    ghost use Rattle.std.specs.Prelude.{List, reverse};
    ghost use Rattle.bv_typing.specs.declared.judging.Slot.{Slot};

    ghost Value = { List Slot };

    ghost view = { λ s. reverse s.stack.items };
}

impl Slots {
    fn new(alloc: Global) -> Slots
        ensures { result ≡ [] }
    {
        Slots {
            stack: Vec::new(alloc),
        }
    }

    fn len(&self) -> usize
        ensures { result ≡ length self.now }
    {
        self.stack.len()
    }

    fn push(&mut self, slot: Slot) -> Result<(), AllocError>
        ensures { IfOk result (λ _. self.new ≡ slot ∷ self.old) }
    {
        self.stack.push(slot)?;
        Ok(())
    }

    fn take(&mut self) -> Option<Slot>
        ensures { (result, self.new) ≡ stacks.popped self.old }
    {
        self.stack.pop()
    }

    /// The last term.
    fn pop(&mut self) -> Part
        ensures { (result, self.new) ≡ spec.popped self.old }
    {
        match self.take() {
            Some(Slot::Term(part)) => part,
            Some(Slot::Call) | None => UNTYPED,
        }
    }

    /// The arguments of the last method.
    fn gather(&mut self) -> Gathered
        ensures { (result, self.new) ≡ spec.gather self.old none_gathered }
    {
        let number = self.len();
        let mut gathered = none_gathered();
        'slots: while let Some(slot) = self.take() {
            match slot {
                Slot::Term(part) => gathered = gathered_before(part.typed, gathered),
                Slot::Call => break,
            }
        }
        gathered
    }
}

/// What is found so far.
#[derive(Drop, Debug)]
pub(crate) struct Findings {
    slots: Slots,
    notes: Vec<Note>,
    least: Option<Misfit>,
}

impl Model for Findings {
    ghost use Rattle.bv_typing.specs.Judging.{Judging};

    ghost Value = { Judging };

    ghost view = { λ j. record { slots = j.slots; notes = j.notes.items; least = j.least } };
}

fn kind_in(typed: Option<Typed>) -> Option<Kind>
    ensures { result ≡ spec.kind_in typed }
{
    match typed {
        Some(typed) => Some(typed.kind),
        None => None,
    }
}

fn row_in(verdict: Option<Verdict>) -> Option<Row>
    ensures { result ≡ spec.row_in verdict }
{
    match verdict {
        Some(verdict) => Some(verdict.row),
        None => None,
    }
}

fn typed_in(verdict: Option<Verdict>) -> Option<Typed>
    ensures { result ≡ spec.typed_in verdict }
{
    match verdict {
        Some(verdict) => verdict.typed,
        None => None,
    }
}

/// The row of a name.
fn name_row(variable: Option<(usize, Option<Sort>)>) -> Row
    ensures { result ≡ name_row variable }
{
    match variable {
        Some((_, sort)) => sorted(sort),
        None => Row::Fails,
    }
}

impl Findings {
    fn new(alloc: Global) -> Findings
        ensures { result ≡ spec.start }
    {
        Findings {
            slots: Slots::new(alloc),
            notes: Vec::new(alloc),
            least: None,
        }
    }

    /// A term is complete.
    fn complete(
        &mut self,
        at: usize,
        outermost: usize,
        verdict: Option<Verdict>,
        note: Note,
    ) -> Result<(), AllocError>
        ensures { IfOk result (λ _. self.new ≡ spec.complete at outermost verdict note self.old.slots self.old) }
    {
        let part = Part {
            typed: typed_in(verdict),
            outermost,
        };
        self.slots.push(Slot::Term(part))?;
        self.notes.push(note)?;
        self.least = earliest(self.least, own_misfit(at, row_in(verdict)));
        Ok(())
    }

    fn leaf(&mut self, at: usize, row: Row) -> Result<(), AllocError>
        ensures { IfOk result (λ _. self.new ≡ spec.leaf at row self.old) }
    {
        self.complete(at, at, Some(verdict_at(1, row)), nothing())
    }

    fn prefix(&mut self, word: Word, at: usize) -> Result<(), AllocError>
        ensures { IfOk result (λ _. self.new ≡ spec.on_prefix word at (spec.popped self.old.slots) self.old) }
    {
        let part = self.slots.pop();
        self.complete(at, at, prefix_verdict(word, part.typed), nothing())
    }

    fn infix(&mut self, word: Word, at: usize) -> Result<(), AllocError>
        ensures { IfOk result (λ _. self.new ≡ spec.on_infix word at (spec.popped self.old.slots) self.old) }
    {
        let right = self.slots.pop().typed;
        let left = self.slots.pop().typed;
        let note = tells(infix_width(word, kind_in(left), kind_in(right)));
        self.complete(at, at, infix_verdict(word, left, right), note)
    }

    fn choice(&mut self, at: usize) -> Result<(), AllocError>
        ensures { IfOk result (λ _. self.new ≡ spec.on_choice at (spec.popped self.old.slots) self.old) }
    {
        let right = self.slots.pop().typed;
        let left = self.slots.pop().typed;
        let test = self.slots.pop().typed;
        let note = tells(either(width_in(kind_in(left)), width_in(kind_in(right))));
        self.complete(at, at, choice_verdict(test, left, right), note)
    }

    fn method(&mut self, method: Option<Method>, at: usize) -> Result<(), AllocError>
        ensures { IfOk result (λ _. self.new ≡ spec.on_method method at (spec.gather self.old.slots none_gathered) self.old) }
    {
        let arguments = self.slots.gather();
        let receiver = self.slots.pop().typed;
        let note = Note {
            width: width_for(method, kind_in(receiver)),
            arguments: arguments.count,
        };
        self.complete(at, at, method_verdict(method, receiver, arguments), note)
    }

    fn ascribed(&mut self, sort: Option<Sort>, at: usize) -> Result<(), AllocError>
        ensures { IfOk result (λ _. self.new ≡ spec.on_ascribed sort at (spec.popped self.old.slots) self.old) }
    {
        let part = self.slots.pop();
        let verdict = ascribed_verdict(sort, part.typed);
        self.complete(at, part.outermost, verdict, tells(width_of_sort(sort)))
    }

    /// The arguments of a method begin.
    fn call(&mut self) -> Result<(), AllocError>
        ensures { IfOk result (λ _. self.new ≡ spec.calling self.old) }
    {
        self.slots.push(Slot::Call)?;
        self.notes.push(nothing())?;
        Ok(())
    }

    /// A piece that is no part of a term.
    fn pass(&mut self) -> Result<(), AllocError>
        ensures { IfOk result (λ _. self.new ≡ spec.passed self.old) }
    {
        self.notes.push(nothing())?;
        Ok(())
    }

    /// Takes a piece.
    fn take(
        &mut self,
        file: &File<'_>,
        bindings: &[Binding],
        piece: Piece,
    ) -> Result<(), AllocError>
        ensures { IfOk result (λ _. self.new ≡ spec.judge (env_at file.now bindings.now) piece self.old) }
    {
        match piece {
            Piece::Name(at) => self.leaf(at, name_row(variable_at(file, bindings, at))),
            Piece::Numeral(at) => { self.leaf(at, Row::Typed(Kind::Number(file.number_at(at)))) }
            Piece::Literal(at, width) => self.leaf(at, sorted(vectors(file.number_at(width)))),
            Piece::Constant(_, at) => self.leaf(at, Row::Typed(Kind::Sorted(Sort::Truth))),
            Piece::Prefix(word, at) => self.prefix(word, at),
            Piece::Infix(word, at) => self.infix(word, at),
            Piece::Choice(at) => self.choice(at),
            Piece::Call(_) => self.call(),
            Piece::Method(at) => self.method(method_of(file.text_at(at)), at),
            Piece::Ascribed(at, sort) => self.ascribed(sort_at(file, sort), at),
            Piece::Goal(_, _) | Piece::Variables(_, _, _) | Piece::Proof(_) => self.pass(),
        }
    }
}

/// What the pieces of a goal are judged as.
#[derive(Drop, Debug)]
pub struct Judgement {
    /// The names that are bound, in order.
    pub bindings: Vec<Binding>,
    /// What each piece tells its parts.
    pub notes: Vec<Note>,
    /// The one fault of its types: the one at the least place.
    pub misfit: Option<Misfit>,
}

/// Judges the pieces of a goal. The error is want of memory alone. Takes time linear in the number of pieces, but for the
/// look-up of names, which takes time linear in the number of the goal's variables, and nothing recurses.
pub fn judge(alloc: Global, file: &File<'_>, pieces: &[Piece]) -> Result<Judgement, AllocError>
    ensures bindings { IfOk result (λ j. j.bindings.items ≡ bindings_in file.now pieces.now) }
    ensures noted { IfOk result (λ j. length j.notes.items ≡ length pieces.now) }
    ensures notes { IfOk result (λ j. (g : Goal) → pieces.now ≡ goal_pieces (g ∷ []) → j.notes.items ≡ goal_notes file.now g) }
    ensures misfit { IfOk result (λ j. (g : Goal) → pieces.now ≡ goal_pieces (g ∷ []) → j.misfit ≡ least (goal_misfits file.now g)) }
{
    let bindings = bindings_of(alloc, file, pieces)?;
    let terms = judge_terms(alloc, file, &bindings, pieces)?;
    let misfit = earliest(binding_misfit(file, &bindings), terms.misfit);
    Ok(Judgement {
        bindings,
        notes: terms.notes,
        misfit,
    })
}

/// What the terms of a goal are judged as: a note for each piece, and the least fault of the terms.
#[derive(Drop, Debug)]
struct Terms {
    notes: Vec<Note>,
    misfit: Option<Misfit>,
}

fn judge_terms(
    alloc: Global,
    file: &File<'_>,
    bindings: &[Binding],
    pieces: &[Piece],
) -> Result<Terms, AllocError>
    ensures notes { IfOk result (λ t. t.notes.items ≡ (spec.judge_all (env_at file.now bindings.now) pieces.now spec.start).notes) }
    ensures misfit { IfOk result (λ t. t.misfit ≡ spec.least_of (spec.judge_all (env_at file.now bindings.now) pieces.now spec.start)) }
{
    let findings = walk(alloc, file, bindings, pieces)?;
    let misfit = earliest(findings.least, truths_misfit(findings.slots));
    Ok(Terms {
        notes: findings.notes,
        misfit,
    })
}

fn walk(
    alloc: Global,
    file: &File<'_>,
    bindings: &[Binding],
    pieces: &[Piece],
) -> Result<Findings, AllocError>
    ensures { IfOk result (λ j. j ≡ spec.judge_all (env_at file.now bindings.now) pieces.now spec.start) }
{
    let mut findings = Findings::new(alloc);
    for piece in pieces {
        findings.take(file, bindings, *piece)?;
    }
    Ok(findings)
}

/// The least of the faults of hypotheses and conclusions that are no truths.
fn truths_misfit(mut slots: Slots) -> Option<Misfit>
    ensures { result ≡ spec.truths_misfit slots None }
{
    let mut found = None;
    'slots: while let Some(slot) = slots.take() {
        if let Slot::Term(part) = slot {
            found = earliest(truth_misfit(part.outermost, kind_in(part.typed)), found);
        }
    }
    found
}
