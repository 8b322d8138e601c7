//! What is kept on the stack while terms are built: numbers, and terms in boxes, which move cheaply and become the parts of nodes
//! as they are.

ghost use Rattle.std.specs.Prelude.{◌≡◌, IfOk, IfErr};
ghost use Rattle.bv_typing.specs.declared.item.Item.TheVariants.{Number, Made};

use bv_expr::Expr;
use std::marker::Model;

/// A number, or a term.
///
/// Contracts see it as an item.
#[derive(Drop)]
pub(crate) struct Entry {
    kept: Kept,
}

/// What an entry keeps.
#[derive(Drop)]
pub(crate) enum Kept {
    Number(u128),
    Term(Box<Expr>),
}

impl Model for Entry {
    ghost use Rattle.bv_typing.specs.declared.item.Item.{Item};
    ghost use Rattle.bv_typing.specs.contracts.item.Item as row;
    ghost use Rattle.bv_terms.specs.Entries.{item_of};

    ghost Value = { Item };

    ghost coded = { row.the_row.coded };

    ghost view = { λ e. item_of e.kept };
}

impl Entry {
    /// A number.
    pub(crate) fn of_number(number: u128) -> Entry
        ensures { result ≡ Number number }
    {
        Entry {
            kept: Kept::Number(number),
        }
    }

    /// A term.
    pub(crate) fn of_term(term: Box<Expr>) -> Entry
        ensures { result ≡ Made term.value }
    {
        Entry {
            kept: Kept::Term(term),
        }
    }

    /// The term, or else the number.
    pub(crate) fn into_term(self) -> Result<Box<Expr>, u128>
        ensures term { IfOk result (λ x. self ≡ Made x.value) }
        ensures number { IfErr result (λ n. self ≡ Number n) }
    {
        let Entry { kept } = self;
        match kept {
            Kept::Term(term) => Ok(term),
            Kept::Number(number) => Err(number),
        }
    }
}
