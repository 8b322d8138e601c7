//! Small files, cut into tokens or up to a fault.

use crate::{FaultKind, TokenKind, What, lex, one_cut};
use bvd_text::Place;
use std::alloc::Global;

/// The most bytes of a file.
const MOST_BYTES: usize = 4_194_304;

/// What a token is to be: kind, first byte, byte behind its last, line, column.
type Want = (TokenKind, usize, usize, u32, u32);

const TOKENS: [(&[u8], &[Want]); 15] = [
    (b"", &[]),
    (b" \t\r\n-- a\n/- b -/", &[]),
    (b"/-/ -/", &[]),
    (b"--x\ny", &[(TokenKind::Name, 4, 5, 2, 1)]),
    (b"/- /- -/ -/x", &[(TokenKind::Name, 11, 12, 1, 12)]),
    (
        b"12ab",
        &[
            (TokenKind::Numeral(12), 0, 2, 1, 1),
            (TokenKind::Name, 2, 4, 1, 3),
        ],
    ),
    (
        b"0X",
        &[
            (TokenKind::Numeral(0), 0, 1, 1, 1),
            (TokenKind::Name, 1, 2, 1, 2),
        ],
    ),
    (
        b"0xFf 0b101",
        &[
            (TokenKind::Numeral(255), 0, 4, 1, 1),
            (TokenKind::Numeral(5), 5, 10, 1, 6),
        ],
    ),
    (
        b"340282366920938463463374607431768211455",
        &[(TokenKind::Numeral(u128::MAX), 0, 39, 1, 1)],
    ),
    (b"<->", &[(TokenKind::Sign, 0, 3, 1, 1)]),
    (
        b"<-",
        &[(TokenKind::Sign, 0, 1, 1, 1), (TokenKind::Sign, 1, 2, 1, 2)],
    ),
    (
        b"a\xE2\x89\xA4b",
        &[
            (TokenKind::Name, 0, 1, 1, 1),
            (TokenKind::Sign, 1, 4, 1, 2),
            (TokenKind::Name, 4, 5, 1, 3),
        ],
    ),
    (
        b"theorem a' :=\n\xCE\xB1\xE2\x82\x80 b",
        &[
            (TokenKind::Reserved, 0, 7, 1, 1),
            (TokenKind::Name, 8, 10, 1, 9),
            (TokenKind::Sign, 11, 13, 1, 12),
            (TokenKind::Name, 14, 19, 2, 1),
            (TokenKind::Name, 20, 21, 2, 4),
        ],
    ),
    (
        b"\"a\r\"\"\"",
        &[(TokenKind::Text, 0, 4, 1, 1), (TokenKind::Text, 4, 6, 1, 5)],
    ),
    (
        b"bv_decide2 bv_decide",
        &[
            (TokenKind::Name, 0, 10, 1, 1),
            (TokenKind::Reserved, 11, 20, 1, 12),
        ],
    ),
];

/// Whether a text has exactly these tokens.
fn has_tokens(alloc: Global, text: &[u8], wanted: &[Want]) -> bool {
    if text.len() > MOST_BYTES {
        return false;
    }
    let Ok(found) = lex(alloc, text) else {
        return false;
    };
    let mut equal = found.len() == wanted.len();
    for (token, want) in found.iter().zip(wanted) {
        let place = Place {
            line: want.3,
            column: want.4,
        };
        equal = equal && token.kind == want.0 && token.from == want.1;
        equal = equal && token.to == want.2 && token.place == place;
    }
    equal
}

const NUMBER: FaultKind = FaultKind::Limit(What::Number);

const FAULTS: [(&[u8], FaultKind, u32, u32); 16] = [
    (b"0xg", FaultKind::Lex, 1, 1),
    (b"x 0b2", FaultKind::Lex, 1, 3),
    (b"\xCE\xBB", FaultKind::Lex, 1, 1),
    (b"\xEF\xBB\xBFa", FaultKind::Lex, 1, 1),
    (b"\xCE\xB1 $", FaultKind::Lex, 1, 3),
    (b"a | b", FaultKind::Lex, 1, 3),
    (b"~~", FaultKind::Lex, 1, 1),
    (b"\"a", FaultKind::Lex, 1, 1),
    (b"\"a\n\"", FaultKind::Lex, 1, 1),
    (b"\"\\\"", FaultKind::Lex, 1, 1),
    (b"/- /- -/", FaultKind::Lex, 1, 1),
    (b"a\xFF", FaultKind::Lex, 1, 2),
    (b"a\n\xE2\x89", FaultKind::Lex, 2, 1),
    (b"a\n /- \xFF -/", FaultKind::Lex, 2, 2),
    (b"340282366920938463463374607431768211456", NUMBER, 1, 1),
    (b"a\n0x100000000000000000000000000000000 $", NUMBER, 2, 1),
];

/// Whether a text has this fault at this place.
fn has_fault(alloc: Global, text: &[u8], kind: FaultKind, place: Place) -> bool {
    if text.len() > MOST_BYTES {
        return false;
    }
    match lex(alloc, text) {
        Ok(_) => false,
        Err(fault) => fault.kind == kind && fault.place == place,
    }
}

#[test]
fn files_are_cut_into_tokens_or_up_to_a_fault(rt: HostRuntime) {
    one_cut();
    for (text, wanted) in &TOKENS {
        assert!(rt; has_tokens(rt.alloc(), text, wanted));
    }
    for (text, kind, line, column) in &FAULTS {
        let place = Place {
            line: *line,
            column: *column,
        };
        assert!(rt; has_fault(rt.alloc(), text, *kind, place));
    }
}
