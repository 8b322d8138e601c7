//! Items out of items: numbers, and terms whose parts fit. What makes a node tests before how deep its parts are, so that no term
//! grows deeper than 1,000; a term that doesn't fit is let go, and then there is no item.

ghost use Rattle.std.specs.Prelude.{◌≡◌, ◌+◌, ◌-◌, ◌≤◌, Some, IfOk, option_and_then, max};
ghost use Rattle.bv_value.specs.BitVector.{of_number};
ghost use Rattle.bv_expr.specs.declared.ops.Unary.TheVariants as of;
ghost use Rattle.bv_expr.specs.Node.{term_of};
ghost use Rattle.bv_expr.specs.Sorts as sorts;
ghost use Rattle.bv_expr.specs.Term.{depth, constant, unary as unary_term, binary as binary_term};
ghost use Rattle.bv_typing.specs.Readings as readings;
ghost use Rattle.bv_terms.specs.Building as spec;

use crate::entry::Entry;
use bv_expr::{Binary, Expr, Node, Sort, Unary, binary_node, unary_node};
use bv_grammar::Word;
use bv_typing::{Numbered, binary_of};
use bv_value::Bv;
use std::alloc::{AllocError, Global};

// The term of this node, where its parts fit.
fn checked(alloc: Global, node: Node) -> Result<Option<Entry>, AllocError>
    requires shallow { depth (term_of node) ≤ 1000 }
    requires numbered { sorts.KeepsNumberBelow64 (term_of node) }
    ensures { IfOk result (λ r. r ≡ spec.checked (term_of node)) }
{
    match Expr::make(node) {
        Ok(expr) => Ok(Some(Entry::of_term(Box::new(alloc, expr)?))),
        Err(_) => Ok(None),
    }
}

/// A variable.
pub(crate) fn variable_item(
    alloc: Global,
    variable: Option<(usize, Option<Sort>)>,
) -> Result<Option<Entry>, AllocError>
    ensures { IfOk result (λ r. r ≡ spec.variable_item variable) }
{
    match variable {
        Some((number, Some(Sort::Truth))) if number < 64 => {
            checked(alloc, Node::TVar(number as u8))
        }
        Some((number, Some(Sort::Vector(width)))) if number < 64 => {
            checked(alloc, Node::Var(number as u8, width))
        }
        _ => Ok(None),
    }
}

/// A bit vector, where its width is 1 to 128.
pub(crate) fn constant_item(
    alloc: Global,
    width: u128,
    number: u128,
) -> Result<Option<Entry>, AllocError>
    ensures { IfOk result (λ r. r ≡ spec.checked (constant (of_number width number))) }
{
    if width < 1 || width > 128 {
        return Ok(None);
    }
    checked(alloc, Node::Const(Bv::new(width as u8, number)))
}

/// A numeral that is read at this width, or at none where it is 0.
pub(crate) fn numeral_item(
    alloc: Global,
    width: u8,
    number: u128,
) -> Result<Option<Entry>, AllocError>
    ensures { IfOk result (λ r. r ≡ spec.numeral_item width number) }
{
    if width == 0 {
        Ok(Some(Entry::of_number(number)))
    } else {
        constant_item(alloc, u128::from(width), number)
    }
}

/// A constant that is a truth.
pub(crate) fn truth_item(alloc: Global, word: Word) -> Result<Option<Entry>, AllocError>
    ensures { IfOk result (λ r. r ≡ spec.checked (readings.constant_term word)) }
{
    match word {
        Word::True | Word::TrueProposition => checked(alloc, Node::TConst(true)),
        _ => checked(alloc, Node::TConst(false)),
    }
}

// An operator on one part.
fn unary(alloc: Global, op: Unary, x: Box<Expr>) -> Result<Option<Entry>, AllocError>
    ensures { IfOk result (λ r. r ≡ spec.checked (unary_term op x.value)) }
{
    if x.depth() >= 1000 {
        return Ok(None);
    }
    checked(alloc, unary_node(op, x))
}

/// An operator on one part, where it is a term.
pub(crate) fn unary_item(alloc: Global, op: Unary, x: Entry) -> Result<Option<Entry>, AllocError>
    ensures { IfOk result (λ r. r ≡ spec.unary_item op x) }
{
    match x.into_term() {
        Ok(x) => unary(alloc, op, x),
        Err(_) => Ok(None),
    }
}

/// The operator that a prefix stands for.
pub(crate) fn prefix_unary(word: Word) -> Unary
    ensures { result ≡ readings.prefix_unary word }
{
    match word {
        Word::Complement => Unary::Not,
        Word::Minus => Unary::Neg,
        _ => Unary::TNot,
    }
}

// An operator on two parts.
#[tactic(auto, using(crate::proofs::Deep::deep_binary))]
fn binary(
    alloc: Global,
    op: Binary,
    x: Box<Expr>,
    y: Box<Expr>,
) -> Result<Option<Entry>, AllocError>
    ensures { IfOk result (λ r. r ≡ spec.checked (binary_term op x.value y.value)) }
{
    if x.depth().max(y.depth()) >= 1000 {
        return Ok(None);
    }
    checked(alloc, binary_node(op, x, y))
}

/// An operator on two parts, where both are terms.
pub(crate) fn binary_item(
    alloc: Global,
    op: Binary,
    x: Entry,
    y: Entry,
) -> Result<Option<Entry>, AllocError>
    ensures { IfOk result (λ r. r ≡ spec.binary_item op x y) }
{
    let Ok(x) = x.into_term() else {
        return Ok(None);
    };
    match y.into_term() {
        Ok(y) => binary(alloc, op, x, y),
        Err(_) => Ok(None),
    }
}

// ---- infix operators

// A shift by a number.
fn shift(alloc: Global, word: Word, x: Box<Expr>, amount: u128) -> Result<Option<Entry>, AllocError>
    ensures { IfOk result (λ r. r ≡ spec.shift_item word x.value amount) }
{
    match word {
        Word::ShiftLeft => unary(alloc, Unary::ShlBy(amount), x),
        Word::ShiftRight => unary(alloc, Unary::LshrBy(amount), x),
        _ => Ok(None),
    }
}

// Whether the two parts change places.
fn is_turned(word: Word) -> bool
    ensures { result ≡ readings.is_turned word }
{
    match word {
        Word::Greater | Word::AtLeast => true,
        _ => false,
    }
}

// Whether it is the negation of an equality.
fn is_negated(word: Word) -> bool
    ensures { result ≡ spec.is_negated word }
{
    match word {
        Word::NotEqual | Word::BoolNotEqual => true,
        _ => false,
    }
}

// The negation of what there is.
fn negation(alloc: Global, item: Option<Entry>) -> Result<Option<Entry>, AllocError>
    ensures { IfOk result (λ r. r ≡ option_and_then (spec.unary_item of.TNot) item) }
{
    match item {
        Some(item) => unary_item(alloc, Unary::TNot, item),
        None => Ok(None),
    }
}

// An item, negated where the operator is a negated one.
fn negated(alloc: Global, word: Word, item: Option<Entry>) -> Result<Option<Entry>, AllocError>
    ensures { IfOk result (λ r. r ≡ spec.negated_item word item) }
{
    if is_negated(word) {
        negation(alloc, item)
    } else {
        Ok(item)
    }
}

// An operator on two parts that may change places.
fn turned(
    alloc: Global,
    word: Word,
    op: Binary,
    x: Box<Expr>,
    y: Box<Expr>,
) -> Result<Option<Entry>, AllocError>
    ensures { IfOk result (λ r. r ≡ spec.checked (spec.turned word op x.value y.value)) }
{
    if is_turned(word) {
        binary(alloc, op, y, x)
    } else {
        binary(alloc, op, x, y)
    }
}

// An infix operator between two terms, where it stands for one on these.
fn joined(
    alloc: Global,
    word: Word,
    op: Option<Binary>,
    x: Box<Expr>,
    y: Box<Expr>,
) -> Result<Option<Entry>, AllocError>
    ensures { IfOk result (λ r. r ≡ spec.joined_item word op x.value y.value) }
{
    match op {
        Some(op) => {
            let item = turned(alloc, word, op, x, y)?;
            negated(alloc, word, item)
        }
        None => Ok(None),
    }
}

/// An infix operator: a shift by a number, or an operator on two terms.
pub(crate) fn infix_item(
    alloc: Global,
    word: Word,
    x: Entry,
    y: Entry,
) -> Result<Option<Entry>, AllocError>
    ensures { IfOk result (λ r. r ≡ spec.infix_item word x y) }
{
    let Ok(x) = x.into_term() else {
        return Ok(None);
    };
    match y.into_term() {
        Ok(y) => {
            let op = binary_of(word, x.sort());
            joined(alloc, word, op, x, y)
        }
        Err(amount) => shift(alloc, word, x, amount),
    }
}

// ---- choices

// A choice between truths, or between vectors.
fn choice_node(sort: Sort, c: Box<Expr>, x: Box<Expr>, y: Box<Expr>) -> Node
    ensures tree { term_of result ≡ spec.choice_as (Some sort) c.value x.value y.value }
    ensures deep { depth (term_of result) ≡ max (depth c.value) (max (depth x.value) (depth y.value)) + 1 }
    ensures numbered { sorts.KeepsNumberBelow64 (term_of result) }
{
    match sort {
        Sort::Truth => Node::TIf(c, x, y),
        Sort::Vector(_) => Node::If(c, x, y),
    }
}

// A choice between two terms.
#[tactic(auto, using(crate::proofs::Deep::deep_choice))]
fn choice(
    alloc: Global,
    c: Box<Expr>,
    x: Box<Expr>,
    y: Box<Expr>,
) -> Result<Option<Entry>, AllocError>
    ensures { IfOk result (λ r. r ≡ spec.checked (spec.choice_as (sorts.sort_of x.value) c.value x.value y.value)) }
{
    if c.depth().max(x.depth().max(y.depth())) >= 1000 {
        return Ok(None);
    }
    let sort = x.sort();
    checked(alloc, choice_node(sort, c, x, y))
}

/// A choice, where its three parts are terms.
pub(crate) fn choice_item(
    alloc: Global,
    c: Entry,
    x: Entry,
    y: Entry,
) -> Result<Option<Entry>, AllocError>
    ensures { IfOk result (λ r. r ≡ spec.choice_item c x y) }
{
    let Ok(c) = c.into_term() else {
        return Ok(None);
    };
    let Ok(x) = x.into_term() else {
        return Ok(None);
    };
    match y.into_term() {
        Ok(y) => choice(alloc, c, x, y),
        Err(_) => Ok(None),
    }
}

// ---- methods

// What is done by a number, where the width that it may be is at most 128.
fn numbered(method: Numbered, number: u128) -> Option<Unary>
    ensures { result ≡ spec.narrow (readings.numbered_unary method number) }
{
    match method {
        Numbered::AshrBy => Some(Unary::AshrBy(number)),
        Numbered::RotL => Some(Unary::RotL(number)),
        Numbered::RotR => Some(Unary::RotR(number)),
        Numbered::Bit => Some(Unary::Bit(number)),
        Numbered::SetWidth if number <= 128 => Some(Unary::SetWidth(number as u8)),
        Numbered::SignExtend if number <= 128 => Some(Unary::SignExtend(number as u8)),
        Numbered::SetWidth | Numbered::SignExtend => None,
    }
}

// Bits from a place on, where their number is at most 128.
fn extract(start: u128, len: u128) -> Option<Unary>
    ensures { result ≡ spec.narrow (of.Extract start len) }
{
    if len <= 128 {
        Some(Unary::Extract(start, len as u8))
    } else {
        None
    }
}

// Bits between two places, both included, where their number is at most 128.
fn between(high: u128, low: u128) -> Option<Unary>
    ensures { result ≡ spec.narrow (of.Extract low (high - low + 1)) }
{
    let above = high.saturating_sub(low);
    if above < 128 {
        extract(low, above + 1)
    } else {
        None
    }
}

// An operator on one part, where there is one.
fn narrowed(alloc: Global, op: Option<Unary>, x: Box<Expr>) -> Result<Option<Entry>, AllocError>
    ensures { IfOk result (λ r. r ≡ option_and_then (λ o. spec.checked (unary_term o x.value)) op) }
{
    match op {
        Some(op) => unary(alloc, op, x),
        None => Ok(None),
    }
}

/// What is done by a number.
#[tactic(auto, using(crate::proofs::Narrow::narrow_checked))]
pub(crate) fn numbered_item(
    alloc: Global,
    method: Numbered,
    x: Entry,
    y: Entry,
) -> Result<Option<Entry>, AllocError>
    ensures { IfOk result (λ r. r ≡ spec.numbered_item method x y) }
{
    let Ok(x) = x.into_term() else {
        return Ok(None);
    };
    match y.into_term() {
        Err(number) => narrowed(alloc, numbered(method, number), x),
        Ok(_) => Ok(None),
    }
}

/// Bits from a place on: the place and the number of bits.
#[tactic(auto, using(crate::proofs::Narrow::narrow_checked))]
pub(crate) fn extract_item(
    alloc: Global,
    x: Entry,
    start: Entry,
    len: Entry,
) -> Result<Option<Entry>, AllocError>
    ensures { IfOk result (λ r. r ≡ spec.extract_item x start len) }
{
    let Ok(x) = x.into_term() else {
        return Ok(None);
    };
    let Err(start) = start.into_term() else {
        return Ok(None);
    };
    match len.into_term() {
        Err(len) => narrowed(alloc, extract(start, len), x),
        Ok(_) => Ok(None),
    }
}

/// Bits between two places: the higher and the lower one, both included.
#[tactic(auto, using(crate::proofs::Narrow::narrow_checked))]
pub(crate) fn between_item(
    alloc: Global,
    x: Entry,
    high: Entry,
    low: Entry,
) -> Result<Option<Entry>, AllocError>
    ensures { IfOk result (λ r. r ≡ spec.between_item x high low) }
{
    let Ok(x) = x.into_term() else {
        return Ok(None);
    };
    let Err(high) = high.into_term() else {
        return Ok(None);
    };
    match low.into_term() {
        Err(low) => narrowed(alloc, between(high, low), x),
        Ok(_) => Ok(None),
    }
}
