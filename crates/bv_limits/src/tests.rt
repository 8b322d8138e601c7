//! Limits by hand.

use crate::{Met, first_deep_term, first_limit_before, first_variable_limit};
use bv_grammar::{Role, Taken, Word};
use bv_lex::What;
use bv_trees::Piece;
use std::alloc::{AllocError, Global};

/// Takes some terminals in one role.
fn take(taken: &mut Vec<Taken>, number: usize, word: Role) -> Result<(), AllocError> {
    for _ in 0..number {
        taken.push(Taken {
            role: word,
            waiting: 0,
        })?;
    }
    Ok(())
}

/// The pieces of so many signs before a name.
fn signs(alloc: Global, number: usize) -> Result<Vec<Piece>, AllocError> {
    let mut pieces = Vec::new(alloc);
    pieces.push(Piece::Name(number))?;
    for at in (0..number).rev() {
        pieces.push(Piece::Prefix(Word::Minus, at))?;
    }
    Ok(pieces)
}

/// example {64 names : Bool} (h : x) (y : Bool): the 65th variable is `y`, once the sort is reached, and the name of the
/// hypothesis is none.
#[test]
fn the_65th_variable_is_told_behind_its_colon(rt: HostRuntime) -> Result<(), AllocError> {
    let mut taken = Vec::new(rt.alloc());
    take(&mut taken, 1, Role::Word(Word::Example))?;
    take(&mut taken, 1, Role::Word(Word::LeftBrace))?;
    take(&mut taken, 64, Role::BraceBinder)?;
    take(&mut taken, 1, Role::Word(Word::Colon))?;
    take(&mut taken, 1, Role::Word(Word::Bool))?;
    take(&mut taken, 1, Role::Word(Word::RightBrace))?;
    take(&mut taken, 1, Role::Word(Word::LeftRound))?;
    take(&mut taken, 1, Role::Binder)?;
    take(&mut taken, 1, Role::Word(Word::Colon))?;
    take(&mut taken, 1, Role::Variable)?;
    take(&mut taken, 1, Role::Word(Word::RightRound))?;
    take(&mut taken, 1, Role::Word(Word::LeftRound))?;
    take(&mut taken, 1, Role::Binder)?;
    take(&mut taken, 1, Role::Word(Word::Colon))?;
    assert_eq!(rt; first_variable_limit(&taken), None);
    take(&mut taken, 1, Role::Word(Word::Bool))?;
    assert_eq!(rt; first_variable_limit(&taken), Some(75));
    Ok(())
}

/// A sign before a thousand parts in one another is too deep, and the first of the signs is told.
#[test]
fn the_first_of_too_many_signs_is_told(rt: HostRuntime) -> Result<(), AllocError> {
    let within = signs(rt.alloc(), 999)?;
    assert_eq!(rt; first_deep_term(rt.alloc(), &within)?, None);
    let deep = signs(rt.alloc(), 1001)?;
    assert_eq!(rt; first_deep_term(rt.alloc(), &deep)?, Some(0));
    Ok(())
}

/// example : - - .. - x, cut short behind it: the first sign is told before the last, at which too many wait; where no operand
/// is there yet, the last is told.
#[test]
fn signs_before_a_cut_are_measured_with_their_operand(rt: HostRuntime) -> Result<(), AllocError> {
    let mut taken = Vec::new(rt.alloc());
    take(&mut taken, 1, Role::Word(Word::Example))?;
    take(&mut taken, 1, Role::Word(Word::Colon))?;
    for sign in 0..1001 {
        taken.push(Taken {
            role: Role::Prefix(Word::Minus),
            waiting: sign + 1,
        })?;
    }
    let last = Met {
        what: What::Depth,
        at: 1002,
    };
    assert_eq!(rt; first_limit_before(rt.alloc(), &[], &taken)?, Some(last));
    taken.push(Taken {
        role: Role::Variable,
        waiting: 1001,
    })?;
    let first = Met {
        what: What::Depth,
        at: 2,
    };
    assert_eq!(rt; first_limit_before(rt.alloc(), &[], &taken)?, Some(first));
    Ok(())
}
