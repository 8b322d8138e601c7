//! Terms, built from pieces and the widths at which they are read: a stack of items, and what each piece does to it.

ghost use Rattle.std.specs.Prelude.{◌≡◌, [], ◌∷◌, IfOk};
ghost use Rattle.bv_typing.specs.Judging.{env_at};
ghost use Rattle.bv_typing.specs.Stacks.{popped};
ghost use Rattle.bv_terms.specs.Building as spec;

use crate::entry::Entry;
use crate::items::{
    between_item, binary_item, choice_item, constant_item, extract_item, infix_item, numbered_item,
    numeral_item, prefix_unary, truth_item, unary_item, variable_item,
};
use crate::widths::Widths;
use bv_expr::{Binary, Unary};
use bv_grammar::Word;
use bv_trees::Piece;
use bv_typing::{Binding, File, Method, Numbered, method_of, variable_at};
use std::alloc::{AllocError, Global};
use std::marker::Model;

/// What is built, as a stack of items.
///
/// Contracts see it as a list, the topmost first.
#[derive(Drop)]
pub(crate) struct Built {
    items: Vec<Entry>,
}

impl Model for Built {
    ghost use Rattle.std.specs.Prelude.{List, reverse};
    ghost use Rattle.bv_typing.specs.declared.item.Item.{Item};
    ghost use Rattle.bv_expr.specs.contracts.expr.Expr as e;
    ghost use Rattle.std.specs.Coded.{codes};

    ghost Value = { List Item };

    ghost coded = { Prim.hlevel (codes, e.the_row.coded) };

    ghost view = { λ b. reverse b.items.items };
}

impl Built {
    pub(crate) fn new(alloc: Global) -> Built
        ensures { result ≡ [] }
    {
        Built {
            items: Vec::new(alloc),
        }
    }

    fn push(&mut self, item: Entry) -> Result<(), AllocError>
        ensures { IfOk result (λ _. self.new ≡ item ∷ self.old) }
    {
        self.items.push(item)?;
        Ok(())
    }

    pub(crate) fn pop(&mut self) -> Option<Entry>
        ensures { (result, self.new) ≡ popped self.old }
    {
        self.items.pop()
    }

    /// With this item, where there is one.
    fn with(mut self, item: Option<Entry>) -> Result<Option<Built>, AllocError>
        ensures { IfOk result (λ r. r ≡ spec.put item self) }
    {
        match item {
            Some(item) => {
                self.push(item)?;
                Ok(Some(self))
            }
            None => Ok(None),
        }
    }

    /// Makes one item of the topmost one.
    fn by_prefix(mut self, alloc: Global, op: Unary) -> Result<Option<Built>, AllocError>
        ensures { IfOk result (λ r. r ≡ spec.by_one (spec.unary_item op) self) }
    {
        match self.pop() {
            Some(x) => {
                let item = unary_item(alloc, op, x)?;
                self.with(item)
            }
            None => Ok(None),
        }
    }

    /// The two topmost items, the lower one first, and what is below them.
    fn pop_two(mut self) -> Option<(Built, Entry, Entry)>
        ensures { result ≡ spec.top_two self }
    {
        let y = self.pop()?;
        let x = self.pop()?;
        Some((self, x, y))
    }

    /// The three topmost items, the lowest one first, and what is below them.
    fn pop_three(mut self) -> Option<(Built, Entry, Entry, Entry)>
        ensures { result ≡ spec.top_three self }
    {
        let z = self.pop()?;
        let (built, x, y) = self.pop_two()?;
        Some((built, x, y, z))
    }

    /// Makes one item of the two topmost ones by an infix operator.
    fn by_infix(self, alloc: Global, word: Word) -> Result<Option<Built>, AllocError>
        ensures { IfOk result (λ r. r ≡ spec.by_two (spec.infix_item word) self) }
    {
        match self.pop_two() {
            Some((built, x, y)) => {
                let item = infix_item(alloc, word, x, y)?;
                built.with(item)
            }
            None => Ok(None),
        }
    }

    /// Makes one item of the two topmost ones by an operator.
    fn by_binary(self, alloc: Global, op: Binary) -> Result<Option<Built>, AllocError>
        ensures { IfOk result (λ r. r ≡ spec.by_two (spec.binary_item op) self) }
    {
        match self.pop_two() {
            Some((built, x, y)) => {
                let item = binary_item(alloc, op, x, y)?;
                built.with(item)
            }
            None => Ok(None),
        }
    }

    /// Makes one item of the two topmost ones, a term and a number.
    fn by_number(self, alloc: Global, method: Numbered) -> Result<Option<Built>, AllocError>
        ensures { IfOk result (λ r. r ≡ spec.by_two (spec.numbered_item method) self) }
    {
        match self.pop_two() {
            Some((built, x, y)) => {
                let item = numbered_item(alloc, method, x, y)?;
                built.with(item)
            }
            None => Ok(None),
        }
    }

    /// Makes one item of the three topmost ones by a choice.
    fn by_choice(self, alloc: Global) -> Result<Option<Built>, AllocError>
        ensures { IfOk result (λ r. r ≡ spec.by_three spec.choice_item self) }
    {
        match self.pop_three() {
            Some((built, c, x, y)) => {
                let item = choice_item(alloc, c, x, y)?;
                built.with(item)
            }
            None => Ok(None),
        }
    }

    /// Makes one item of the three topmost ones, a term, a place and a number of bits.
    fn by_extract(self, alloc: Global) -> Result<Option<Built>, AllocError>
        ensures { IfOk result (λ r. r ≡ spec.by_three spec.extract_item self) }
    {
        match self.pop_three() {
            Some((built, x, start, len)) => {
                let item = extract_item(alloc, x, start, len)?;
                built.with(item)
            }
            None => Ok(None),
        }
    }

    /// Makes one item of the three topmost ones, a term and two places.
    fn by_between(self, alloc: Global) -> Result<Option<Built>, AllocError>
        ensures { IfOk result (λ r. r ≡ spec.by_three spec.between_item self) }
    {
        match self.pop_three() {
            Some((built, x, high, low)) => {
                let item = between_item(alloc, x, high, low)?;
                built.with(item)
            }
            None => Ok(None),
        }
    }

    /// What a method does with its receiver and its arguments.
    fn by_method(self, alloc: Global, method: Option<Method>) -> Result<Option<Built>, AllocError>
        ensures { IfOk result (λ r. r ≡ spec.method_step method self) }
    {
        match method {
            Some(Method::Msb) => self.by_prefix(alloc, Unary::Msb),
            Some(Method::With(op)) => self.by_binary(alloc, op),
            Some(Method::ArithmeticShift) => self.by_binary(alloc, Binary::Ashr),
            Some(Method::By(numbered)) => self.by_number(alloc, numbered),
            Some(Method::Extract) => self.by_extract(alloc),
            Some(Method::ExtractBetween) => self.by_between(alloc),
            None => Ok(None),
        }
    }

    /// What a piece does that is read at a width.
    fn step(
        self,
        alloc: Global,
        file: &File<'_>,
        bindings: &[Binding],
        piece: Piece,
        width: u8,
    ) -> Result<Option<Built>, AllocError>
        ensures { IfOk result (λ r. r ≡ spec.step (env_at file.now bindings.now) piece width self) }
    {
        match piece {
            Piece::Name(at) => self.with(variable_item(alloc, variable_at(file, bindings, at))?),
            Piece::Numeral(at) => self.with(numeral_item(alloc, width, file.number_at(at))?),
            Piece::Literal(at, width_at) => {
                self.with(constant_item(alloc, file.number_at(width_at), file.number_at(at))?)
            }
            Piece::Constant(word, _) => self.with(truth_item(alloc, word)?),
            Piece::Prefix(word, _) => self.by_prefix(alloc, prefix_unary(word)),
            Piece::Infix(word, _) => self.by_infix(alloc, word),
            Piece::Choice(_) => self.by_choice(alloc),
            Piece::Method(at) => self.by_method(alloc, method_of(file.text_at(at))),
            Piece::Call(_) | Piece::Ascribed(_, _) => Ok(Some(self)),
            Piece::Goal(_, _) | Piece::Variables(_, _, _) | Piece::Proof(_) => Ok(Some(self)),
        }
    }
}

/// What the pieces of a goal build, each read at its width, the topmost of these for the first piece: an item for each term that
/// is complete, the last one topmost; none where a piece finds too few items, or parts that fit no term. The error is want of
/// memory alone. Takes time linear in the number of pieces, but for the look-up of names, and nothing recurses.
pub(crate) fn build(
    alloc: Global,
    file: &File<'_>,
    bindings: &[Binding],
    pieces: &[Piece],
    mut widths: Widths,
) -> Result<Option<Built>, AllocError>
    ensures { IfOk result (λ r. r ≡ spec.build (env_at file.now bindings.now) pieces.now widths []) }
{
    let mut built = Built::new(alloc);
    for piece in pieces {
        let width = widths.take();
        match built.step(alloc, file, bindings, *piece, width)? {
            Some(next) => built = next,
            None => return Ok(None),
        }
    }
    Ok(Some(built))
}
