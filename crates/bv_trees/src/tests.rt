//! Files as pieces of their goals.

use crate::{Piece, Sort, complete_pieces, goal_pieces, whole_files_have_one_reading};
use bv_grammar::{End, Reading, Terminal, Word, read};
use std::alloc::AllocError;

const THEOREM: Terminal = Terminal::Word(Word::Theorem);

const EXAMPLE: Terminal = Terminal::Word(Word::Example);

const BY: Terminal = Terminal::Word(Word::By);

const DECIDE: Terminal = Terminal::Word(Word::Decide);

const CHECK: Terminal = Terminal::Word(Word::Check);

const IF: Terminal = Terminal::Word(Word::If);

const THEN: Terminal = Terminal::Word(Word::Then);

const ELSE: Terminal = Terminal::Word(Word::Else);

const LEFT: Terminal = Terminal::Word(Word::LeftRound);

const RIGHT: Terminal = Terminal::Word(Word::RightRound);

const COLON: Terminal = Terminal::Word(Word::Colon);

const ASSIGN: Terminal = Terminal::Word(Word::Assign);

const DOT: Terminal = Terminal::Word(Word::Dot);

const HASH: Terminal = Terminal::Word(Word::Hash);

const BIT_VEC: Terminal = Terminal::Word(Word::BitVec);

const MINUS: Terminal = Terminal::Word(Word::Minus);

const TIMES: Terminal = Terminal::Word(Word::Times);

const EQUAL: Terminal = Terminal::Word(Word::Equal);

const IMPLIES: Terminal = Terminal::Word(Word::Implies);

const NAME: Terminal = Terminal::Name;

const NUMERAL: Terminal = Terminal::Numeral;

/// A file, and its pieces.
const WHOLE: [(&[Terminal], &[Piece]); 5] = [
    (&[], &[]),
    // example : a - b - -c * d := by bv_decide
    (
        &[
            EXAMPLE, COLON, NAME, MINUS, NAME, MINUS, MINUS, NAME, TIMES, NAME, ASSIGN, BY, DECIDE,
        ],
        &[
            Piece::Goal(0, 1),
            Piece::Name(2),
            Piece::Name(4),
            Piece::Infix(Word::Minus, 3),
            Piece::Name(7),
            Piece::Prefix(Word::Minus, 6),
            Piece::Name(9),
            Piece::Infix(Word::Times, 8),
            Piece::Infix(Word::Minus, 5),
            Piece::Proof(None),
        ],
    ),
    // theorem a.b (x y : BitVec 8) (h : x → y → z) : x = 1#8 := by bv_check "f"
    (
        &[
            THEOREM,
            NAME,
            DOT,
            NAME,
            LEFT,
            NAME,
            NAME,
            COLON,
            BIT_VEC,
            NUMERAL,
            RIGHT,
            LEFT,
            NAME,
            COLON,
            NAME,
            IMPLIES,
            NAME,
            IMPLIES,
            NAME,
            RIGHT,
            COLON,
            NAME,
            EQUAL,
            NUMERAL,
            HASH,
            NUMERAL,
            ASSIGN,
            BY,
            CHECK,
            Terminal::Text,
        ],
        &[
            Piece::Goal(0, 4),
            Piece::Variables(5, 7, Sort::Vector(9)),
            Piece::Name(14),
            Piece::Name(16),
            Piece::Name(18),
            Piece::Infix(Word::Implies, 17),
            Piece::Infix(Word::Implies, 15),
            Piece::Name(21),
            Piece::Literal(23, 25),
            Piece::Infix(Word::Equal, 22),
            Piece::Proof(Some(29)),
        ],
    ),
    // example : x.m.n (y - z).k 2 - if a then b else (c : BitVec 4) := by bv_decide
    (
        &[
            EXAMPLE, COLON, NAME, DOT, NAME, DOT, NAME, LEFT, NAME, MINUS, NAME, RIGHT, DOT, NAME,
            NUMERAL, MINUS, IF, NAME, THEN, NAME, ELSE, LEFT, NAME, COLON, BIT_VEC, NUMERAL, RIGHT,
            ASSIGN, BY, DECIDE,
        ],
        &[
            Piece::Goal(0, 1),
            Piece::Name(2),
            Piece::Call(4),
            Piece::Method(4),
            Piece::Call(6),
            Piece::Name(8),
            Piece::Name(10),
            Piece::Infix(Word::Minus, 9),
            Piece::Call(13),
            Piece::Method(13),
            Piece::Numeral(14),
            Piece::Method(6),
            Piece::Name(17),
            Piece::Name(19),
            Piece::Name(22),
            Piece::Ascribed(23, Sort::Vector(25)),
            Piece::Choice(16),
            Piece::Infix(Word::Minus, 15),
            Piece::Proof(None),
        ],
    ),
    // import a open b c.d
    (
        &[
            Terminal::Word(Word::Import),
            NAME,
            Terminal::Word(Word::Open),
            NAME,
            NAME,
            DOT,
            NAME,
        ],
        &[],
    ),
];

/// A file with a syntax fault, and the pieces of what is complete before it.
const CUT: [(&[Terminal], &[Piece]); 3] = [
    (&[THEOREM], &[]),
    // example : a = b = c
    (
        &[EXAMPLE, COLON, NAME, EQUAL, NAME, EQUAL, NAME],
        &[
            Piece::Goal(0, 1),
            Piece::Name(2),
            Piece::Name(4),
            Piece::Infix(Word::Equal, 3),
        ],
    ),
    // example : if a - -b :=
    (
        &[EXAMPLE, COLON, IF, NAME, MINUS, MINUS, NAME, ASSIGN],
        &[
            Piece::Goal(0, 1),
            Piece::Name(3),
            Piece::Name(6),
            Piece::Prefix(Word::Minus, 5),
            Piece::Infix(Word::Minus, 4),
        ],
    ),
];

/// Whether these are the pieces.
fn are_pieces(found: &[Piece], wanted: &[Piece]) -> bool {
    let mut equal = found.len() == wanted.len();
    for (left, right) in found.iter().zip(wanted) {
        equal = equal && left == right;
    }
    equal
}

#[test]
fn whole_files_are_pieces(rt: HostRuntime) -> Result<(), AllocError> {
    whole_files_have_one_reading();
    for (terminals, wanted) in &WHOLE {
        let Reading { taken, end } = read(rt.alloc(), terminals)?;
        assert_eq!(rt; end, End::Whole);
        assert!(rt; are_pieces(&goal_pieces(rt.alloc(), &taken)?, wanted));
    }
    Ok(())
}

#[test]
fn what_is_complete_before_a_fault_is_pieces(rt: HostRuntime) -> Result<(), AllocError> {
    for (terminals, wanted) in &CUT {
        let Reading { taken, end } = read(rt.alloc(), terminals)?;
        assert_eq!(rt; end, End::Fault);
        assert!(rt; are_pieces(&complete_pieces(rt.alloc(), &taken)?, wanted));
    }
    Ok(())
}
