//! Certificates over the clauses `1` and `-1` and over those of a goal, in pieces of several sizes, and reads that fail.

ghost use Rattle.std.specs.Prelude.{◌≡◌, true};
ghost use Rattle.sat_form.specs.Shape.{are_within, variables_within};

use crate::replay;
use bvd_host::{SliceSource, Source};
use sat_form::{Clauses, Cnf, Lit};
use std::alloc::{AllocError, Global};
use std::test::Fail;

/// The clauses `1` and `-1`.
fn opposite_units(alloc: Global) -> Result<Cnf, AllocError> {
    let mut clauses = Clauses::new(alloc);
    clauses.push(&[Lit::new(1, true)])?;
    clauses.push(&[Lit::new(1, false)])?;
    Ok(Cnf { vars: 1, clauses })
}

/// The clauses that say that `(a && (b && c)) = ((a && b) && c)` is false, each ended by 0.
const ASSOCIATIVITY: [i32; 74] = [
    1, 0, -5, 3, 0, -5, 4, 0, 5, -3, -4, 0, -6, 2, 0, -6, 5, 0, 6, -2, -5, 0, -7, 2, 0, -7, 3, 0,
    7, -2, -3, 0, -8, 4, 0, -8, 7, 0, 8, -4, -7, 0, -9, 6, 0, -9, 8, 0, 9, -6, -8, 0, -10, -6, 0,
    -10, -8, 0, 10, 6, 8, 0, -11, -9, 0, -11, -10, 0, 11, 9, 10, 0, 11, 0,
];

const ASSOCIATIVITY_PROOF: &[u8] = b"24 2 0 23 21 5 8 12 19 0
25 3 0 23 21 2 9 6 12 19 0
26 4 0 23 21 3 11 6 19 0
27 0 23 20 24 25 10 26 4 13 7 16 0
";

/// Clauses over the variables 1 to 11 that are written down: those so far, and the one whose end hasn't come.
#[derive(Drop)]
struct Draft {
    clause: Vec<Lit>,
    clauses: Clauses,
    ghost within: { are_within 11 clause.items ≡ true },
    ghost closed: { variables_within 11 clauses ≡ true },
}

impl Draft {
    /// Takes a literal of the open clause, or the 0 behind it.
    fn take(&mut self, number: i32) -> Result<(), AllocError> {
        let var = number.unsigned_abs();
        if number == 0 {
            self.clauses.push(&self.clause)?;
            self.clause.clear();
        } else if var < 12 {
            self.clause.push(Lit::new(var, number > 0))?;
        }
        Ok(())
    }
}

/// No clause.
fn empty(alloc: Global) -> Draft {
    Draft {
        clause: Vec::new(alloc),
        clauses: Clauses::new(alloc),
    }
}

/// The formula of the clauses, where they are few enough.
fn formula(draft: Draft) -> Option<Cnf> {
    let Draft { clauses, .. } = draft;
    if clauses.len() >= 1 << 62 {
        return None;
    }
    Some(Cnf { vars: 11, clauses })
}

/// The clauses of the goal.
fn associativity(alloc: Global) -> Result<Option<Cnf>, AllocError> {
    let mut draft = empty(alloc);
    for number in &ASSOCIATIVITY {
        draft.take(*number)?;
    }
    Ok(formula(draft))
}

/// What a text is answered that comes in pieces, where the reads with these numbers fail.
fn answer(
    alloc: Global,
    cnf: &Cnf,
    text: &[u8],
    piece: usize,
    most: u64,
    failing: Vec<u64>,
) -> Result<String, AllocError> {
    let mut source = SliceSource::new(text, piece.max(1), failing);
    match replay(alloc, cnf, &mut source, most) {
        Ok(()) => format!(in alloc; "Ok"),
        Err(stop) => format!(in alloc; "{stop:?}"),
    }
}

const ROWS: [(&[u8], u64, &str); 22] = [
    (b"3 0 1 2 0", 100, "Ok"),
    (b"3 0 1 2 0", 9, "Ok"),
    (b"3 7 0 0\n4 0 1 2 0", 100, "Ok"),
    (b"3 0 2 0", 100, "NoConflict(1)"),
    (b"2 0 1 2 0", 100, "IdInUse(1)"),
    (b"3 0 9 0", 100, "NoClause(1, 9)"),
    (b"3 7 0 -1 0", 100, "StrangeGroup(1, 1)"),
    (b"3 -1 0 0", 100, "MissingGroup(1, 1)"),
    (b"3 0 1", 100, "Bad(1)"),
    (b"3 0 1\n3 0 1 2 0\n", 100, "Bad(1)"),
    (b"", 100, "NoEmpty"),
    (b"", 0, "NoEmpty"),
    (b"3 d 9 0", 100, "NoEmpty"),
    (b"3 0 1 2 0", 3, "TooLong"),
    (b"3 0 1 2 0\n", 9, "TooLong"),
    (b"3 0 1 2 0\nx", 10, "Ok"),
    (b"3 -1 0 2 0", 100, "NoEmpty"),
    (b"3 1 -1 0 0", 100, "NoEmpty"),
    (b"3 0 3 0", 100, "NoClause(1, 3)"),
    (b"3 d 1 0\n4 0 1 2 0", 100, "NoClause(2, 1)"),
    (b"c x\n\n \t3  0 1\t2 0 \r\nrest", 100, "Ok"),
    (b"c x\n\n3 0 2 0\n", 100, "NoConflict(3)"),
];

#[test]
fn answers_are_those_of_the_text(rt: HostRuntime) -> Result<(), Fail> {
    let alloc = rt.alloc();
    let cnf = opposite_units(alloc)?;
    for (text, most, wanted) in &ROWS {
        for piece in [1usize, 7, 100] {
            let given = answer(alloc, &cnf, text, piece, *most, Vec::new(alloc))?;
            let told = str::from_utf8(text).unwrap_or("no text");
            assert_eq!(rt; given.as_str(), *wanted, "{told} in pieces of {piece}");
        }
    }
    Ok(())
}

#[test]
fn reads_that_fail(rt: HostRuntime) -> Result<(), Fail> {
    let alloc = rt.alloc();
    let cnf = opposite_units(alloc)?;
    let text = b"3 0 1 2 0\n4 0 1 2 0";
    for (call, wanted) in [(1u64, "ReadFault"), (10, "ReadFault"), (11, "Ok")] {
        let given = answer(alloc, &cnf, text, 1, 100, vec![in alloc; call]?)?;
        assert_eq!(rt; given.as_str(), wanted, "read {call} failing");
    }
    Ok(())
}

#[test]
fn a_line_longer_than_a_piece(rt: HostRuntime) -> Result<(), Fail> {
    let alloc = rt.alloc();
    let cnf = opposite_units(alloc)?;
    let mut text = Vec::new(alloc);
    text.resize(200_000, b'c')?;
    text.extend_from_slice(b"\n3 7 0 0\n4 0 2 0")?;
    for most in [200_016u64, u64::MAX] {
        let given = answer(alloc, &cnf, &text, 65536, most, Vec::new(alloc))?;
        assert_eq!(rt; given.as_str(), "NoConflict(3)", "{most} bytes");
    }
    let given = answer(alloc, &cnf, &text, 1_000_000, 200_015, Vec::new(alloc))?;
    assert_eq!(rt; given.as_str(), "TooLong", "a byte too many");
    Ok(())
}

#[test]
fn a_goals_certificate_in_pieces(rt: HostRuntime) -> Result<(), Fail> {
    let alloc = rt.alloc();
    let cnf = associativity(alloc)?.ok_or("too many clauses")?;
    for piece in [1usize, 2, 7, 4096] {
        let given = answer(
            alloc,
            &cnf,
            ASSOCIATIVITY_PROOF,
            piece,
            u64::MAX,
            Vec::new(alloc),
        )?;
        assert_eq!(rt; given.as_str(), "Ok", "in pieces of {piece}");
    }
    Ok(())
}

/// The read that fails would be the second one: it is still to come afterwards, so no read has failed.
#[test]
fn what_follows_the_empty_clause_is_not_read(rt: HostRuntime) -> Result<(), Fail> {
    let alloc = rt.alloc();
    let cnf = opposite_units(alloc)?;
    let mut text = Vec::new(alloc);
    text.extend_from_slice(b"3 0 1 2 0\n")?;
    text.resize(200_010, b'x')?;
    let mut source = SliceSource::new(&text, 65536, vec![in alloc; 2u64]?);
    assert!(rt; replay(alloc, &cnf, &mut source, u64::MAX).is_ok());
    assert!(rt; source.read(&mut [0u8; 1]).is_err());
    Ok(())
}
