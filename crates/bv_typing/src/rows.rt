//! How terms are typed: for each form, of which kinds its parts may be, and of which kind it then is.

ghost use Rattle.std.specs.Prelude.{◌≡◌};
ghost use Rattle.bv_typing.specs.Rows as spec;

use crate::kind::{Kind, Row};
use crate::sorts::binary_sort;
use bv_expr::{Binary, Sort};
use bv_grammar::Word;

const TRUTH: Row = Row::Typed(Kind::Sorted(Sort::Truth));

/// A row that gives this sort, where there is one.
pub(crate) fn sorted(sort: Option<Sort>) -> Row
    ensures { result ≡ spec.sorted sort }
{
    match sort {
        Some(sort) => Row::Typed(Kind::Sorted(sort)),
        None => Row::Fails,
    }
}

/// A row that gives vectors of this width, which may be too great.
pub(crate) fn resized(width: u128) -> Row
    ensures { result ≡ spec.resized width }
{
    if 1 <= width && width <= 128 {
        Row::Typed(Kind::Sorted(Sort::Vector(width as u8)))
    } else {
        Row::TooWide
    }
}

/// A numeral is a bare term.
fn as_term(kind: Kind) -> Kind
    ensures { result ≡ spec.as_term kind }
{
    match kind {
        Kind::Number(_) => Kind::Bare,
        Kind::Sorted(_) | Kind::Bare => kind,
    }
}

/// The negation of a truth.
fn negation_row(part: Kind) -> Row
    ensures { result ≡ spec.negation_row part }
{
    match part {
        Kind::Sorted(Sort::Truth) => TRUTH,
        _ => Row::Fails,
    }
}

/// What is as its one part, a vector or bare.
fn arithmetic_row(part: Kind) -> Row
    ensures { result ≡ spec.arithmetic_row part }
{
    match part {
        Kind::Sorted(Sort::Truth) => Row::Fails,
        _ => Row::Typed(as_term(part)),
    }
}

/// A prefix operator.
pub(crate) fn prefix_row(word: Word, part: Kind) -> Row
    ensures { result ≡ spec.prefix_row word part }
{
    match word {
        Word::Complement | Word::Minus => arithmetic_row(part),
        Word::Not | Word::BoolNot => negation_row(part),
        _ => Row::Fails,
    }
}

/// Equality of truths, or of vectors.
fn equality(sort: Sort) -> Binary
    ensures { result ≡ spec.equality sort }
{
    match sort {
        Sort::Truth => Binary::TEq,
        Sort::Vector(_) => Binary::Eq,
    }
}

/// The node that an infix operator makes, where its first part has this sort. A negation round it, and the order of its parts,
/// are left to the caller. Takes constant time.
pub fn binary_of(word: Word, sort: Sort) -> Option<Binary>
    ensures { result ≡ spec.binary_of word sort }
{
    let op = match word {
        Word::ShiftLeft => Binary::Shl,
        Word::ShiftRight => Binary::Lshr,
        Word::Times => Binary::Mul,
        Word::Divide => Binary::Udiv,
        Word::Modulo => Binary::Umod,
        Word::Plus => Binary::Add,
        Word::Minus => Binary::Sub,
        Word::Append => Binary::Append,
        Word::BitAnd => Binary::And,
        Word::BitXor => Binary::Xor,
        Word::BitOr => Binary::Or,
        Word::Equal | Word::NotEqual => equality(sort),
        Word::BoolEqual | Word::BoolNotEqual => equality(sort),
        Word::Less | Word::Greater => Binary::Ult,
        Word::AtMost | Word::AtLeast => Binary::Ule,
        Word::And | Word::BoolAnd => Binary::TAnd,
        Word::BoolXor => Binary::TXor,
        Word::Or | Word::BoolOr => Binary::TOr,
        Word::Implies => Binary::Implies,
        Word::Iff => Binary::TEq,
        _ => return None,
    };
    Some(op)
}

/// The sort of an infix operator by the sorts of its parts. `>` and `≥` take both parts of one sort, so their order doesn't
/// matter here.
fn infix_sort(word: Word, left: Sort, right: Sort) -> Option<Sort>
    ensures { result ≡ spec.infix_sort word left right }
{
    match binary_of(word, left) {
        Some(op) => binary_sort(op, left, right),
        None => None,
    }
}

/// Operators on two vectors of one width that give such a vector.
fn is_arithmetic(word: Word) -> bool
    ensures { result ≡ spec.is_arithmetic word }
{
    match word {
        Word::Times | Word::Divide | Word::Modulo | Word::Plus | Word::Minus => true,
        Word::BitAnd | Word::BitXor | Word::BitOr => true,
        _ => false,
    }
}

/// Operators that compare two of one sort.
fn is_comparison(word: Word) -> bool
    ensures { result ≡ spec.is_comparison word }
{
    match word {
        Word::Equal | Word::NotEqual | Word::BoolEqual | Word::BoolNotEqual => true,
        Word::Less | Word::AtMost | Word::Greater | Word::AtLeast => true,
        _ => false,
    }
}

/// A bare part beside a part of this sort is read at its width.
fn beside_bare(word: Word, sort: Sort) -> Row
    ensures { result ≡ spec.beside_bare word sort }
{
    match sort {
        Sort::Vector(_) if is_arithmetic(word) || is_comparison(word) => sorted(infix_sort(
            word, sort, sort,
        )),
        _ => Row::Fails,
    }
}

fn both_bare(word: Word) -> Row
    ensures { result ≡ spec.both_bare word }
{
    if is_arithmetic(word) {
        Row::Typed(Kind::Bare)
    } else {
        Row::Fails
    }
}

/// An infix operator whose parts have one width.
fn plain_row(word: Word, left: Kind, right: Kind) -> Row
    ensures { result ≡ spec.plain_row word left right }
{
    match (left, right) {
        (Kind::Sorted(left), Kind::Sorted(right)) => sorted(infix_sort(word, left, right)),
        (Kind::Sorted(sort), Kind::Bare | Kind::Number(_)) => beside_bare(word, sort),
        (Kind::Bare | Kind::Number(_), Kind::Sorted(sort)) => beside_bare(word, sort),
        (Kind::Bare | Kind::Number(_), Kind::Bare | Kind::Number(_)) => both_bare(word),
    }
}

/// A shift. The amount is a numeral, or a vector of any width.
fn amount_row(part: Kind, amount: Kind) -> Row
    ensures { result ≡ spec.amount_row part amount }
{
    match amount {
        Kind::Number(_) | Kind::Sorted(Sort::Vector(_)) => arithmetic_row(part),
        Kind::Bare | Kind::Sorted(Sort::Truth) => Row::Fails,
    }
}

/// Two vectors, one behind the other.
fn append_row(left: Kind, right: Kind) -> Row
    ensures { result ≡ spec.append_row left right }
{
    match (left, right) {
        (Kind::Sorted(Sort::Vector(v)), Kind::Sorted(Sort::Vector(w))) => resized(
            u128::from(v) + u128::from(w),
        ),
        _ => Row::Fails,
    }
}

/// An infix operator.
pub(crate) fn infix_row(word: Word, left: Kind, right: Kind) -> Row
    ensures { result ≡ spec.infix_row word left right }
{
    match word {
        Word::ShiftLeft | Word::ShiftRight => amount_row(left, right),
        Word::Append => append_row(left, right),
        _ => plain_row(word, left, right),
    }
}

/// The two branches of a choice: truths, or vectors as for `+`.
fn branches_row(left: Kind, right: Kind) -> Row
    ensures { result ≡ spec.branches_row left right }
{
    match (left, right) {
        (Kind::Sorted(Sort::Truth), Kind::Sorted(Sort::Truth)) => TRUTH,
        _ => plain_row(Word::Plus, left, right),
    }
}

/// A choice.
pub(crate) fn choice_row(test: Kind, left: Kind, right: Kind) -> Row
    ensures { result ≡ spec.choice_row test left right }
{
    match test {
        Kind::Sorted(Sort::Truth) => branches_row(left, right),
        _ => Row::Fails,
    }
}

/// An ascription: a term of the sort that is written, or a bare one that is read at its width.
pub(crate) fn ascribed_row(sort: Sort, part: Kind) -> Row
    ensures { result ≡ spec.ascribed_row sort part }
{
    match (sort, part) {
        (Sort::Truth, Kind::Sorted(Sort::Truth)) => TRUTH,
        (Sort::Vector(w), Kind::Sorted(Sort::Vector(v))) => if v == w {
            Row::Typed(Kind::Sorted(sort))
        } else {
            Row::Fails
        },
        (Sort::Vector(_), Kind::Bare | Kind::Number(_)) => Row::Typed(Kind::Sorted(sort)),
        (Sort::Truth, _) | (Sort::Vector(_), Kind::Sorted(Sort::Truth)) => Row::Fails,
    }
}
