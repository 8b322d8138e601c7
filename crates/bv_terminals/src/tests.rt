//! Tokens as terminals.

use crate::terminals;
use bv_grammar::{Terminal, Word};
use bv_lex::lex;
use std::alloc::Global;

const ROWS: [(&[u8], &[Terminal]); 4] = [
    (b"", &[]),
    (
        b"theorem t12 := by bv_check \"f\"",
        &[
            Terminal::Word(Word::Theorem),
            Terminal::Name,
            Terminal::Word(Word::Assign),
            Terminal::Word(Word::By),
            Terminal::Word(Word::Check),
            Terminal::Text,
        ],
    ),
    (
        b"<= \xE2\x89\xA4 /\\ \xE2\x88\xA7 && -> \xE2\x86\x92 <->\xE2\x86\x94",
        &[
            Terminal::Word(Word::AtMost),
            Terminal::Word(Word::AtMost),
            Terminal::Word(Word::And),
            Terminal::Word(Word::And),
            Terminal::Word(Word::BoolAnd),
            Terminal::Word(Word::Implies),
            Terminal::Word(Word::Implies),
            Terminal::Word(Word::Iff),
            Terminal::Word(Word::Iff),
        ],
    ),
    (
        b"true True 5#8 , - ~~~",
        &[
            Terminal::Word(Word::True),
            Terminal::Word(Word::TrueProposition),
            Terminal::Numeral,
            Terminal::Word(Word::Hash),
            Terminal::Numeral,
            Terminal::Word(Word::Comma),
            Terminal::Word(Word::Minus),
            Terminal::Word(Word::Complement),
        ],
    ),
];

/// Whether a text has exactly these terminals.
fn has_terminals(alloc: Global, text: &[u8], wanted: &[Terminal]) -> bool {
    if text.len() > 4_194_304 {
        return false;
    }
    let Ok(tokens) = lex(alloc, text) else {
        return false;
    };
    let Ok(found) = terminals(alloc, text, &tokens) else {
        return false;
    };
    let mut equal = found.len() == wanted.len();
    for (left, right) in found.iter().zip(wanted) {
        equal = equal && left == right;
    }
    equal
}

#[test]
fn both_spellings_are_one_word(rt: HostRuntime) {
    for (text, wanted) in &ROWS {
        assert!(rt; has_terminals(rt.alloc(), text, wanted));
    }
}
