//! Files up to their end or their fault.

use crate::{End, Terminal, Word, read};

const THEOREM: Terminal = Terminal::Word(Word::Theorem);

const EXAMPLE: Terminal = Terminal::Word(Word::Example);

const IMPORT: Terminal = Terminal::Word(Word::Import);

const OPEN: Terminal = Terminal::Word(Word::Open);

const BY: Terminal = Terminal::Word(Word::By);

const IF: Terminal = Terminal::Word(Word::If);

const THEN: Terminal = Terminal::Word(Word::Then);

const ELSE: Terminal = Terminal::Word(Word::Else);

const TRUE: Terminal = Terminal::Word(Word::True);

const BOOL: Terminal = Terminal::Word(Word::Bool);

const BIT_VEC: Terminal = Terminal::Word(Word::BitVec);

const DECIDE: Terminal = Terminal::Word(Word::Decide);

const LEFT: Terminal = Terminal::Word(Word::LeftRound);

const RIGHT: Terminal = Terminal::Word(Word::RightRound);

const COLON: Terminal = Terminal::Word(Word::Colon);

const ASSIGN: Terminal = Terminal::Word(Word::Assign);

const DOT: Terminal = Terminal::Word(Word::Dot);

const HASH: Terminal = Terminal::Word(Word::Hash);

const MINUS: Terminal = Terminal::Word(Word::Minus);

const PLUS: Terminal = Terminal::Word(Word::Plus);

const EQUAL: Terminal = Terminal::Word(Word::Equal);

const NAME: Terminal = Terminal::Name;

const NUMERAL: Terminal = Terminal::Numeral;

/// A file, how its reading ends, how many terminals are taken, and the most that wait.
const ROWS: [(&[Terminal], End, usize, usize); 11] = [
    (&[], End::Whole, 0, 0),
    (&[THEOREM], End::Fault, 1, 0),
    (
        &[EXAMPLE, COLON, TRUE, ASSIGN, BY, DECIDE],
        End::Whole,
        6,
        0,
    ),
    (
        &[IMPORT, NAME, DOT, BOOL, OPEN, NAME, NAME, NAME],
        End::Whole,
        8,
        0,
    ),
    (&[IMPORT, NAME, NAME], End::Fault, 2, 0),
    // example : a = b = c
    (
        &[EXAMPLE, COLON, NAME, EQUAL, NAME, EQUAL, NAME],
        End::Fault,
        5,
        1,
    ),
    // example (a : BitVec 8) : -a + a = 0#8
    (
        &[
            EXAMPLE, LEFT, NAME, COLON, BIT_VEC, NUMERAL, RIGHT, COLON, MINUS, NAME, PLUS, NAME,
            EQUAL, NUMERAL, HASH, NUMERAL, ASSIGN, BY, DECIDE,
        ],
        End::Whole,
        19,
        1,
    ),
    // example : ((a, which ends too early
    (&[EXAMPLE, COLON, LEFT, LEFT, NAME], End::Fault, 5, 2),
    // example : (if a then b else -c : Bool)
    (
        &[
            EXAMPLE, COLON, LEFT, IF, NAME, THEN, NAME, ELSE, MINUS, NAME, COLON, BOOL, RIGHT,
            ASSIGN, BY, DECIDE,
        ],
        End::Whole,
        16,
        3,
    ),
    // example : a.m b (c).n = d
    (
        &[
            EXAMPLE, COLON, NAME, DOT, NAME, NAME, LEFT, NAME, RIGHT, DOT, NAME, EQUAL, NAME,
            ASSIGN, BY, DECIDE,
        ],
        End::Whole,
        16,
        1,
    ),
    // example : a b, an argument without a method
    (&[EXAMPLE, COLON, NAME, NAME], End::Fault, 3, 0),
];

#[test]
fn reads_up_to_the_end_or_the_fault(rt: HostRuntime) {
    for (terminals, end, number, most) in &ROWS {
        let reading = read(rt.alloc(), terminals).expect(&rt, "memory");
        assert!(rt; reading.end == *end);
        assert_eq!(rt; reading.taken.len(), *number);
        let mut waiting = 0;
        for taken in &reading.taken {
            waiting = waiting.max(taken.waiting);
        }
        assert_eq!(rt; waiting, *most);
    }
}
