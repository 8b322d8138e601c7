//! Faults of files, each with its place, and files that have none.

use crate::parse;
use bv_expr::Name;
use bv_lex::{FaultKind, What};
use std::alloc::{AllocError, Global};
use std::test::Fail;

/// The kind of a file's fault, and its line and column.
fn fault_of(alloc: Global, text: &str) -> Option<(FaultKind, u32, u32)> {
    if text.len() > 4_194_304 {
        return None;
    }
    match parse(alloc, text.as_bytes()) {
        Ok(_) => None,
        Err(fault) => Some((fault.kind, fault.place.line, fault.place.column)),
    }
}

#[test]
fn the_one_fault_of_a_file(rt: HostRuntime) -> Result<(), Fail> {
    let alloc = rt.alloc();
    for (text, kind, line, column) in [
        ("/- a /- b -/", FaultKind::Lex, 1, 1),
        ("example : 1 = $ := by bv_decide", FaultKind::Lex, 1, 15),
        ("theorem", FaultKind::Syntax, 1, 8),
        (
            "theorem c (a b c : Bool) : a = b = c := by bv_decide",
            FaultKind::Syntax,
            1,
            34,
        ),
        (
            "theorem t (a a : Bool) : a := by bv_decide",
            FaultKind::Typing,
            1,
            14,
        ),
        ("example : 1 = 1 := by bv_decide", FaultKind::Typing, 1, 13),
        (
            "theorem w (x : BitVec 129) : x = x := by bv_decide",
            FaultKind::Limit(What::Width),
            1,
            23,
        ),
        (
            "theorem w (x : BitVec 65) : x ++ x = x ++ x := by bv_decide",
            FaultKind::Limit(What::Width),
            1,
            31,
        ),
        (
            "example (x : BitVec 8) : x ++ 1 = x ++ 1 := by bv_decide",
            FaultKind::Typing,
            1,
            28,
        ),
        (
            "example (x : BitVec 8) : x <<< (1 + 1) = x := by bv_decide",
            FaultKind::Typing,
            1,
            28,
        ),
        (
            "example (x : BitVec 8) : x.sshiftRight' (1 + 1) = x := by bv_decide",
            FaultKind::Typing,
            1,
            28,
        ),
        (
            "example (x : BitVec 8) : x.lsb = x := by bv_decide",
            FaultKind::Typing,
            1,
            28,
        ),
        (
            "example (x : BitVec 8) : x.setWidth 129 = 0 := by bv_decide",
            FaultKind::Limit(What::Width),
            1,
            28,
        ),
    ] {
        assert_eq!(rt; fault_of(alloc, text), Some((kind, line, column)));
    }
    Ok(())
}

/// How many goals a file has, and the name of the certificate's file of the first.
fn goals_of(alloc: Global, text: &str) -> Option<(usize, Option<String>)> {
    if text.len() > 4_194_304 {
        return None;
    }
    match parse(alloc, text.as_bytes()) {
        Ok(goals) => {
            let number = goals.len();
            let first = goals.into_iter().next()?;
            Some((number, first.stored.map(Name::into_string)))
        }
        Err(_) => None,
    }
}

#[test]
fn goals_of_files(rt: HostRuntime) -> Result<(), Fail> {
    let alloc = rt.alloc();
    for (text, number, stored) in [
        ("example : 300#8 = 44#8 := by bv_decide", 1, None),
        (
            "open BitVec theorem b (x : BitVec 8) : x \u{2264} x + 1 := by bv_check \"b.lrat\" example : True := by bv_decide",
            2,
            Some("b.lrat"),
        ),
        (
            "example (x : BitVec 8) : x.rotateLeft 9 = x.sshiftRight 200 := by intros; bv_decide",
            1,
            None,
        ),
        (
            "example (x : BitVec 8) (h : x > 3) : x.msb := by bv_decide",
            1,
            None,
        ),
    ] {
        let found = goals_of(alloc, text);
        assert!(rt; found.is_some());
        if let Some((goals, name)) = found {
            assert_eq!(rt; goals, number);
            assert_eq!(rt; name.as_deref(), stored);
        }
    }
    Ok(())
}

/// The fault of a file with so many signs between these texts.
fn fault_among(
    alloc: Global,
    before: &str,
    signs: usize,
    behind: &str,
) -> Result<Option<(FaultKind, u32, u32)>, AllocError> {
    let mut text = Vec::new(alloc);
    for byte in before.as_bytes() {
        text.push(*byte)?;
    }
    for _ in 0..signs {
        text.push(b'!')?;
    }
    for byte in behind.as_bytes() {
        text.push(*byte)?;
    }
    if text.len() > 4_194_304 {
        return Ok(None);
    }
    match parse(alloc, &text) {
        Ok(_) => Ok(None),
        Err(fault) => Ok(Some((fault.kind, fault.place.line, fault.place.column))),
    }
}

/// A term that is complete before a token that can't stand there is measured; one that isn't has no depth.
#[test]
fn deep_terms_before_a_syntax_fault(rt: HostRuntime) -> Result<(), Fail> {
    let alloc = rt.alloc();
    for (before, signs, behind, kind, column) in [
        ("example : ", 999, "x )", FaultKind::Syntax, 1012),
        ("example : ", 1000, "x )", FaultKind::Limit(What::Depth), 11),
        ("example : ", 1000, ")", FaultKind::Syntax, 1011),
        ("example : ", 1001, "x )", FaultKind::Limit(What::Depth), 11),
        ("example : ", 1001, ")", FaultKind::Limit(What::Depth), 1011),
        (
            "example : if a then b else ",
            999,
            "x",
            FaultKind::Limit(What::Depth),
            11,
        ),
        ("example : if a then ", 999, "x", FaultKind::Syntax, 1021),
        ("example : (! ", 999, "x", FaultKind::Limit(What::Depth), 12),
    ] {
        assert_eq!(rt;
            fault_among(alloc, before, signs, behind)?,
            Some((kind, 1, column))
        );
    }
    Ok(())
}
