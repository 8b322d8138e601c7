//! Runs over a keeper and a sink in memory: the printed lines, and what a failing device leaves.
ghost use Rattle.std.specs.Prelude.{Some};

use crate::run_single;
use bvd_host::{MapKeeper, Sink, SinkStop, VecSink};
use std::alloc::{AllocError, Global};
use std::collections::BTreeMap;

/// Which call of each kind fails, from 1; 0 for none.
#[derive(Clone, Copy)]
struct Failing {
    read: u64,
    write: u64,
    told: u64,
}

const NOTHING_FAILS: Failing = Failing {
    read: 0,
    write: 0,
    told: 0,
};

/// What a run left.
#[derive(Drop)]
struct Ran {
    status: u8,
    report: Vec<u8>,
    first: Option<Vec<u8>>,
    second: Option<Vec<u8>>,
    third: Option<Vec<u8>>,
}

/// A file: its name and its bytes.
type File<'a> = (&'a str, &'a [u8]);

/// Runs the words over these files.
fn run_over(
    alloc: Global,
    words: &[&str],
    files: &[File<'_>],
    failing: Failing,
) -> Result<Ran, AllocError> {
    let mut kept_files = BTreeMap::new(alloc);
    for (name, bytes) in files {
        kept_files.insert(
            String::from_str(alloc, name)?,
            Vec::from_slice(alloc, bytes)?,
        )?;
    }
    let mut owned = Vec::new(alloc);
    for word in words {
        owned.push(String::from_str(alloc, word)?)?;
    }
    let reads = Vec::from_slice(alloc, &[failing.read])?;
    let writes = Vec::from_slice(alloc, &[failing.write])?;
    let mut keeper = MapKeeper::new(alloc, kept_files, reads, writes);
    let mut out = VecSink::new(alloc, Vec::from_slice(alloc, &[failing.told])?);
    let status = run_single(alloc, &owned, &mut keeper, &mut out);
    Ok(Ran {
        status,
        report: out.written().to_vec(alloc)?,
        first: kept(alloc, &keeper, "goal-1.lrat")?,
        second: kept(alloc, &keeper, "goal-2.lrat")?,
        third: kept(alloc, &keeper, "goal-3.lrat")?,
    })
}

/// Runs the words over `a.lean`, where it has bytes.
fn run(
    alloc: Global,
    words: &[&str],
    file: Option<&[u8]>,
    failing: Failing,
) -> Result<Ran, AllocError> {
    match file {
        Some(bytes) => run_over(alloc, words, &[("a.lean", bytes)], failing),
        None => run_over(alloc, words, &[], failing),
    }
}

/// What a file holds.
fn kept(alloc: Global, keeper: &MapKeeper, name: &str) -> Result<Option<Vec<u8>>, AllocError> {
    match keeper.files().get(name) {
        Some(bytes) => Ok(Some(bytes.to_vec(alloc)?)),
        None => Ok(None),
    }
}

const PROVE: [&str; 2] = ["prove", "a.lean"];

const CERTIFICATE: &[u8] = b"3 0 1 2 0\n";

const USAGE: &[u8] = b"usage: bvd COMMAND [OPTIONS] FILE..\n";

const SUM: &[u8] = b"example : 5#8 + 251#8 = 0#8 := by bv_decide";

const TWO: &[u8] =
    b"example : 5#8 + 251#8 = 0#8 := by bv_decide\n\nexample : 65535#16 = 65535#16 := by bv_decide\n";

/// What a run over one file tells: the words, the file, the status and the report.
type Told<'a> = (&'a [&'a str], &'a [u8], u8, &'a [u8]);

/// Whether each run tells what its row says.
fn all_tell(alloc: Global, rows: &[Told<'_>]) -> Result<bool, AllocError> {
    for (words, file, status, report) in rows {
        let ran = run(alloc, words, Some(file), NOTHING_FAILS)?;
        if ran.status != *status || ran.report.as_slice() != *report {
            return Ok(false);
        }
    }
    Ok(true)
}

const EQUAL: &[u8] = b"theorem n (a b : Bool) : a = b := by bv_decide\n";

const ASSOCIATIVE: &[u8] =
    b"theorem t (a b c : Bool) : (a && (b && c)) = ((a && b) && c) := by bv_decide\n";

#[test]
fn searches_tell_their_answers(rt: HostRuntime) {
    let rows: [Told<'_>; 12] = [
        (
            &PROVE,
            b"",
            0,
            b"file a.lean\ngoals: 0 proved, 0 false, 0 other\n",
        ),
        (
            &PROVE,
            b"example : 12#4 &&& 10#4 = 9#4 := by bv_decide",
            1,
            b"file a.lean\n1. example: false\ngoals: 0 proved, 1 false, 0 other\n",
        ),
        (
            &PROVE,
            SUM,
            0,
            b"file a.lean\n1. example: proved goal-1.lrat\ngoals: 1 proved, 0 false, 0 other\n",
        ),
        (
            &["prove", "--steps", "1", "a.lean"],
            SUM,
            3,
            b"file a.lean\n1. example: budget 1\ngoals: 0 proved, 0 false, 1 other\n",
        ),
        (
            &["alone", "--steps=2", "a.lean"],
            SUM,
            0,
            b"file a.lean\n1. example: proved goal-1.lrat\ngoals: 1 proved, 0 false, 0 other\n",
        ),
        (
            &PROVE,
            b"theorem f (a : Bool) : a = true := by bv_decide",
            1,
            b"file a.lean\n1. f: false a = false\ngoals: 0 proved, 1 false, 0 other\n",
        ),
        (
            &["alone", "--steps", "6", "a.lean"],
            EQUAL,
            1,
            b"file a.lean\n1. n: false a = false, b = true\ngoals: 0 proved, 1 false, 0 other\n",
        ),
        (
            &["alone", "--steps", "5", "a.lean"],
            EQUAL,
            3,
            b"file a.lean\n1. n: budget 5\ngoals: 0 proved, 0 false, 1 other\n",
        ),
        (
            &["alone", "--steps", "28", "a.lean"],
            ASSOCIATIVE,
            0,
            b"file a.lean\n1. t: proved goal-1.lrat\ngoals: 1 proved, 0 false, 0 other\n",
        ),
        (
            &["alone", "--steps", "27", "a.lean"],
            ASSOCIATIVE,
            3,
            b"file a.lean\n1. t: budget 27\ngoals: 0 proved, 0 false, 1 other\n",
        ),
        (
            &["schedule", "--seed", "1", "--table", "2", "a.lean"],
            EQUAL,
            5,
            b"file a.lean\n1. n: full\ngoals: 0 proved, 0 false, 1 other\ngates: 0 in cones, 0 distinct\n",
        ),
        (
            &["schedule", "--seed", "1", "--table", "3", "a.lean"],
            EQUAL,
            1,
            b"file a.lean\n1. n: false a = false, b = true\ngoals: 0 proved, 1 false, 0 other\ngates: 3 in cones, 3 distinct\n",
        ),
    ];
    assert!(rt; all_tell(rt.alloc(), &rows).expect(&rt, "memory"));
    let ran = run(rt.alloc(), &PROVE, Some(SUM), NOTHING_FAILS).expect(&rt, "memory");
    assert!(rt; ran.first.is_some_and(|text| text.as_slice() == CERTIFICATE));
}

#[test]
fn faults_clauses_and_goals_are_told(rt: HostRuntime) {
    let rows: [Told<'_>; 12] = [
        (
            &PROVE,
            b"theorem",
            4,
            b"file a.lean: syntax 1:8\ngoals: 0 proved, 0 false, 0 other\n",
        ),
        (
            &PROVE,
            b"/- a /- b -/",
            4,
            b"file a.lean: lex 1:1\ngoals: 0 proved, 0 false, 0 other\n",
        ),
        (
            &PROVE,
            b"theorem c (a b c : Bool) : a = b = c := by bv_decide",
            4,
            b"file a.lean: syntax 1:34\ngoals: 0 proved, 0 false, 0 other\n",
        ),
        (
            &PROVE,
            b"example : 1 = 1 := by bv_decide",
            4,
            b"file a.lean: type 1:13\ngoals: 0 proved, 0 false, 0 other\n",
        ),
        (
            &PROVE,
            b"example : 1 = $ := by bv_decide",
            4,
            b"file a.lean: lex 1:15\ngoals: 0 proved, 0 false, 0 other\n",
        ),
        (
            &PROVE,
            b"theorem b (x : BitVec 8) : x \xe2\x89\xa4 x + 1 := by bv_decide",
            1,
            b"file a.lean\n1. b: false x = 0xff#8\ngoals: 0 proved, 1 false, 0 other\n",
        ),
        (
            &PROVE,
            b"theorem m (x : BitVec 8) : x * 2 = x <<< 1 := by bv_decide",
            0,
            b"file a.lean\n1. m: proved goal-1.lrat\ngoals: 1 proved, 0 false, 0 other\n",
        ),
        (
            &["cnf", "a.lean"],
            EQUAL,
            0,
            b"c 1 n\np cnf 6 11\n1 0\n-4 2 0\n-4 3 0\n4 -2 -3 0\n-5 -2 0\n-5 -3 0\n5 2 3 0\n-6 -4 0\n-6 -5 0\n6 4 5 0\n6 0\n",
        ),
        (
            &["cnf", "a.lean"],
            b"theorem f (a : Bool) : a = true := by bv_decide",
            0,
            b"c 1 f\np cnf 2 2\n1 0\n-2 0\n",
        ),
        (
            &["show", "a.lean"],
            SUM,
            0,
            b"example : ((0x05#8 + 0xfb#8) = 0x00#8) := by bv_decide\n",
        ),
        (
            &["show", "a.lean"],
            EQUAL,
            0,
            b"theorem n (a : Bool) (b : Bool) : (a = b) := by bv_decide\n",
        ),
        (
            &["show", "a.lean"],
            b"theorem s (x : BitVec 8) (h : x > 3) : \xc2\xac x = 0 := by bv_decide",
            0,
            b"theorem s (x : BitVec 8) (h : (0x03#8 < x)) : (!(x = 0x00#8)) := by bv_decide\n",
        ),
    ];
    assert!(rt; all_tell(rt.alloc(), &rows).expect(&rt, "memory"));
}

/// A file as users have it.
const MASKS: &[u8] =
    b"import Std.Tactic.BVDecide\nopen BitVec\n/- masks -/\ntheorem mask_le (x m : BitVec 32) : x &&& m \xe2\x89\xa4 x := by bv_decide\ntheorem swap_xor (a b : BitVec 16) (h : a \xe2\x89\xa0 b) : (a ^^^ b) != 0 := by bv_decide\ntheorem half_lt (x : BitVec 8) (h : 0 < x) : x >>> 1 < x := by\n  bv_decide -- one line\n";

#[test]
fn goals_on_vectors_are_told(rt: HostRuntime) {
    let rows: [Told<'_>; 10] = [
        (
            &PROVE,
            b"theorem z (x : BitVec 8) : x / 0 = 0 := by bv_decide\ntheorem r (x : BitVec 8) : x % 0 = x := by bv_decide",
            0,
            b"file a.lean\n1. z: proved goal-1.lrat\n2. r: proved goal-2.lrat\ngoals: 2 proved, 0 false, 0 other\n",
        ),
        (
            &PROVE,
            b"example : (128#8).sdiv 255#8 = 128#8 := by bv_decide example : (249#8).srem 3#8 = 255#8 := by bv_decide example : (249#8).smod 3#8 = 2#8 := by bv_decide",
            0,
            b"file a.lean\n1. example: proved goal-1.lrat\n2. example: proved goal-2.lrat\n3. example: proved goal-3.lrat\ngoals: 3 proved, 0 false, 0 other\n",
        ),
        (
            &PROVE,
            b"example : 300#8 = 44#8 := by bv_decide example : (0x81#8).rotateLeft 9 = 0x03#8 := by bv_decide example : (0x80#8).sshiftRight 200 = 0xff#8 := by bv_decide",
            0,
            b"file a.lean\n1. example: proved goal-1.lrat\n2. example: proved goal-2.lrat\n3. example: proved goal-3.lrat\ngoals: 3 proved, 0 false, 0 other\n",
        ),
        (
            &PROVE,
            b"theorem w (x : BitVec 0) : x = x := by bv_decide",
            4,
            b"file a.lean: limit width 1:23\ngoals: 0 proved, 0 false, 0 other\n",
        ),
        (
            &PROVE,
            b"theorem w (x : BitVec 128) : x = x := by bv_decide",
            0,
            b"file a.lean\n1. w: proved goal-1.lrat\ngoals: 1 proved, 0 false, 0 other\n",
        ),
        (
            &PROVE,
            b"theorem w (x : BitVec 65) : x ++ x = x ++ x := by bv_decide",
            4,
            b"file a.lean: limit width 1:31\ngoals: 0 proved, 0 false, 0 other\n",
        ),
        (
            &PROVE,
            b"theorem p (x y : BitVec 1) : x + y = x ^^^ y := by bv_decide",
            0,
            b"file a.lean\n1. p: proved goal-1.lrat\ngoals: 1 proved, 0 false, 0 other\n",
        ),
        (
            &["alone", "a.lean"],
            MASKS,
            0,
            b"file a.lean\n1. mask_le: proved goal-1.lrat\n2. swap_xor: proved goal-2.lrat\n3. half_lt: proved goal-3.lrat\ngoals: 3 proved, 0 false, 0 other\n",
        ),
        (
            &PROVE,
            b"theorem u (x y : BitVec 1) (h : x = 1) : x * y = 1 := by bv_decide",
            1,
            b"file a.lean\n1. u: false x = 0x1#1, y = 0x0#1\ngoals: 0 proved, 1 false, 0 other\n",
        ),
        (
            &PROVE,
            b"theorem v (x y : BitVec 2) (h : y = 3) : x <<< y = 0 := by bv_decide theorem d (x y : BitVec 2) (h : y = 0) : x / y = 0 := by bv_decide theorem q (x y : BitVec 2) : x / y \xe2\x89\xa4 x := by bv_decide",
            0,
            b"file a.lean\n1. v: proved goal-1.lrat\n2. d: proved goal-2.lrat\n3. q: proved goal-3.lrat\ngoals: 3 proved, 0 false, 0 other\n",
        ),
    ];
    assert!(rt; all_tell(rt.alloc(), &rows).expect(&rt, "memory"));
    let doubled = b"theorem m (x : BitVec 8) : x * 2 = x <<< 1 := by bv_decide";
    let ran = run(rt.alloc(), &PROVE, Some(doubled), NOTHING_FAILS).expect(&rt, "memory");
    assert!(rt; ran.first.is_some_and(|text| text.as_slice() == CERTIFICATE));
}

/// Whether both files are there, with the same bytes.
fn are_same(file: &Option<Vec<u8>>, other: &Option<Vec<u8>>) -> bool {
    match (file, other) {
        (Some(file), Some(other)) => file.as_slice() == other.as_slice(),
        _ => false,
    }
}

/// Whether the report is the other with one line more, of gates.
fn adds_gates(report: &[u8], other: &[u8]) -> bool {
    match report.strip_prefix(other) {
        Some(rest) => match rest.split_last() {
            Some((last, line)) => *last == b'\n'
                && line.starts_with(b"gates: ")
                && !line.contains(&b'\n'),
            None => false,
        },
        None => false,
    }
}

#[test]
fn every_schedule_tells_what_each_goal_is_told_alone(rt: HostRuntime) {
    let words = ["alone", "a.lean"];
    let alone = run(rt.alloc(), &words, Some(MASKS), NOTHING_FAILS).expect(&rt, "memory");
    let words = ["schedule", "--seed", "1", "--table", "4096", "a.lean"];
    let of_seed_one = run(rt.alloc(), &words, Some(MASKS), NOTHING_FAILS).expect(&rt, "memory");
    for seed in 1..=200u32 {
        let number = format!(in rt.alloc(); "{seed}").expect(&rt, "memory");
        let words = [
            "schedule",
            "--seed",
            number.as_str(),
            "--table",
            "4096",
            "a.lean",
        ];
        let ran = run(rt.alloc(), &words, Some(MASKS), NOTHING_FAILS).expect(&rt, "memory");
        assert_eq!(rt; ran.status, alone.status, "at {seed}");
        assert!(rt; adds_gates(&ran.report, &alone.report), "at {seed}");
        assert!(rt;
            ran.report.as_slice() == of_seed_one.report.as_slice(),
            "at {seed}"
        );
        assert!(rt; are_same(&ran.first, &alone.first), "at {seed}");
        assert!(rt; are_same(&ran.second, &alone.second), "at {seed}");
        assert!(rt; are_same(&ran.third, &alone.third), "at {seed}");
    }
}

#[test]
fn failing_devices_leave_what_was_done_before(rt: HostRuntime) {
    // Which call of a kind fails; the status; how many bytes are told, and how many of each certificate are there.
    let rows: [(u64, u64, u64, u8, bool, Option<usize>, Option<usize>); 9] = [
        (1, 0, 0, 6, false, None, None),
        (2, 0, 0, 6, false, None, None),
        (3, 0, 0, 0, true, Some(10), Some(10)),
        (0, 1, 0, 6, false, None, None),
        (0, 2, 0, 6, false, Some(0), None),
        (0, 3, 0, 6, false, Some(10), None),
        (0, 4, 0, 6, false, Some(10), Some(0)),
        (0, 0, 1, 6, false, Some(10), Some(10)),
        (0, 0, 2, 0, true, Some(10), Some(10)),
    ];
    for (read, write, told, status, whole, first, second) in rows {
        let failing = Failing { read, write, told };
        let ran = run(rt.alloc(), &PROVE, Some(TWO), failing).expect(&rt, "memory");
        assert_eq!(rt; ran.status, status);
        assert!(rt; ran.report.is_empty() != whole);
        assert_eq!(rt; ran.first.as_ref().map(|text| text.len()), first);
        assert_eq!(rt; ran.second.as_ref().map(|text| text.len()), second);
    }
}

#[test]
fn goals_are_numbered_through_all_files(rt: HostRuntime) {
    let two: [File<'_>; 2] = [
        ("a.lean", EQUAL),
        (
            "b.lean",
            b"theorem m (p q : Bool) : p = q := by bv_decide\n",
        ),
    ];
    let rows: [(&[&str], &[File<'_>], u8, &[u8]); 3] = [
        (
            &["alone", "a.lean", "b.lean"],
            &two,
            1,
            b"file a.lean\n1. n: false a = false, b = true\nfile b.lean\n2. m: false p = false, q = true\ngoals: 0 proved, 2 false, 0 other\n",
        ),
        (
            &["schedule", "--seed", "1", "a.lean", "b.lean"],
            &two,
            1,
            b"file a.lean\n1. n: false a = false, b = true\nfile b.lean\n2. m: false p = false, q = true\ngoals: 0 proved, 2 false, 0 other\ngates: 6 in cones, 3 distinct\n",
        ),
        (
            &["prove", "a.lean", "b.lean"],
            &[("a.lean", SUM)],
            4,
            b"file a.lean\n1. example: proved goal-1.lrat\nfile b.lean: absent\ngoals: 1 proved, 0 false, 0 other\n",
        ),
    ];
    for (words, files, status, report) in rows {
        let ran = run_over(rt.alloc(), words, files, NOTHING_FAILS).expect(&rt, "memory");
        assert_eq!(rt; ran.status, status);
        assert!(rt; ran.report.as_slice() == report);
    }
}

/// The certificate of the associativity of three conjunctions.
const LINES: &[u8] =
    b"24 2 0 23 21 5 8 12 19 0\n25 3 0 23 21 2 9 6 12 19 0\n26 4 0 23 21 3 11 6 19 0\n27 0 23 20 24 25 10 26 4 13 7 16 0\n";

/// The same with a hint less in its first line.
const HINT_LESS: &[u8] =
    b"24 2 0 23 21 5 8 12 0\n25 3 0 23 21 2 9 6 12 19 0\n26 4 0 23 21 3 11 6 19 0\n27 0 23 20 24 25 10 26 4 13 7 16 0\n";

#[test]
fn stored_certificates_are_checked(rt: HostRuntime) {
    let proved = run(rt.alloc(), &PROVE, Some(ASSOCIATIVE), NOTHING_FAILS).expect(&rt, "memory");
    assert!(rt; proved.first.is_some_and(|text| text.as_slice() == LINES));
    let rows: [(&[File<'_>], u8, &[u8]); 4] = [
        (
            &[("a.lean", ASSOCIATIVE), ("goal-1.lrat", LINES)],
            0,
            b"file a.lean\n1. t: accepted goal-1.lrat\ngoals: 1 accepted, 0 refused, 0 other\n",
        ),
        (
            &[("a.lean", ASSOCIATIVE), ("goal-1.lrat", HINT_LESS)],
            1,
            b"file a.lean\n1. t: refused goal-1.lrat line 1: missing group 7\ngoals: 0 accepted, 1 refused, 0 other\n",
        ),
        (
            &[("a.lean", ASSOCIATIVE), ("goal-1.lrat", b"24 2 0 21 0\n")],
            1,
            b"file a.lean\n1. t: refused goal-1.lrat line 1: not unit 21\ngoals: 0 accepted, 1 refused, 0 other\n",
        ),
        (
            &[("a.lean", ASSOCIATIVE)],
            4,
            b"file a.lean\n1. t: absent goal-1.lrat\ngoals: 0 accepted, 0 refused, 1 other\n",
        ),
    ];
    for (files, status, report) in rows {
        let words: [&str; 2] = ["check", "a.lean"];
        let ran = run_over(rt.alloc(), &words, files, NOTHING_FAILS).expect(&rt, "memory");
        assert_eq!(rt; ran.status, status);
        assert!(rt; ran.report.as_slice() == report);
    }
}

#[test]
fn a_failing_read_of_a_certificate_ends_a_check(rt: HostRuntime) {
    // The size and the bytes of the file, then those of the certificate.
    let files: [File<'_>; 2] = [("a.lean", ASSOCIATIVE), ("goal-1.lrat", LINES)];
    let words: [&str; 2] = ["check", "a.lean"];
    for read in [3, 4] {
        let failing = Failing {
            read,
            write: 0,
            told: 0,
        };
        let ran = run_over(rt.alloc(), &words, &files, failing).expect(&rt, "memory");
        assert_eq!(rt; ran.status, 6);
        assert!(rt; ran.report.is_empty());
    }
}

/// A false goal's line.
const FALSE_LINE: &[u8] = b"example : 1#1 = 0#1 := by bv_decide\n";

#[test]
fn a_long_report_is_told_in_pieces(rt: HostRuntime) -> Result<(), AllocError> {
    let mut file = Vec::new(rt.alloc());
    for _ in 0..450 {
        file.extend_from_slice(FALSE_LINE)?;
    }
    let rows = [
        (0, 1, 8940),
        (1, 6, 0),
        (2, 6, 4096),
        (3, 6, 8192),
        (4, 1, 8940),
    ];
    for (told, status, length) in rows {
        let failing = Failing {
            read: 0,
            write: 0,
            told,
        };
        let ran = run(rt.alloc(), &PROVE, Some(&file), failing)?;
        assert_eq!(rt; ran.status, status);
        assert_eq!(rt; ran.report.len(), length);
    }
    Ok(())
}

/// An output that takes three bytes of a piece at most.
#[derive(Drop)]
struct NarrowSink {
    held: Vec<u8>,
}

impl Sink for NarrowSink {
    ghost written = { λ s. Some s.held.items };

    ghost faults = { λ s. 0 };

    fn write(&mut self, bytes: &[u8]) -> Result<usize, SinkStop> {
        let count = bytes.len().min(3);
        self.held
            .extend_from_slice(&bytes[..count])
            .map_err(SinkStop::Memory)?;
        Ok(count)
    }
}

#[test]
fn an_output_that_takes_pieces_in_part_has_it_all(rt: HostRuntime) -> Result<(), AllocError> {
    let none: Vec<u64> = Vec::new(rt.alloc());
    let mut keeper = MapKeeper::new(
        rt.alloc(),
        BTreeMap::new(rt.alloc()),
        none,
        Vec::new(rt.alloc()),
    );
    let mut out = NarrowSink {
        held: Vec::new(rt.alloc()),
    };
    let status = run_single(rt.alloc(), &[], &mut keeper, &mut out);
    assert_eq!(rt; status, 2);
    assert!(rt; out.held.as_slice() == USAGE);
    Ok(())
}

#[test]
fn a_file_above_the_sizes_is_not_read(rt: HostRuntime) -> Result<(), AllocError> {
    let second_read_fails = Failing {
        read: 2,
        write: 0,
        told: 0,
    };
    let mut file = Vec::new(rt.alloc());
    for _ in 0..4_194_304 {
        file.push(b'\n')?;
    }
    let ran = run(rt.alloc(), &PROVE, Some(&file), second_read_fails)?;
    assert_eq!(rt; ran.status, 6);
    file.push(b'\n')?;
    let ran = run(rt.alloc(), &PROVE, Some(&file), second_read_fails)?;
    assert_eq!(rt; ran.status, 4);
    assert!(rt;
        ran.report.as_slice()
            == b"file a.lean: too long\ngoals: 0 proved, 0 false, 0 other\n".as_slice()
    );
    Ok(())
}

#[test]
fn refused_words_give_the_usage(rt: HostRuntime) {
    let rows: [&[&str]; 10] = [
        &[],
        &["prove"],
        &["help"],
        &["cnf", "a.lean", "a.lean"],
        &["prove", "--workers", "1", "a.lean"],
        &["prove", "--"],
        &["prove", "--steps", "0", "a.lean"],
        &["prove", "--steps", "1", "--steps", "1", "a.lean"],
        &["check", "-x"],
        &["schedule", "a.lean"],
    ];
    // A call on the keeper would fail.
    let failing = Failing {
        read: 1,
        write: 1,
        told: 0,
    };
    for words in rows {
        let ran = run(rt.alloc(), words, Some(SUM), failing).expect(&rt, "memory");
        assert_eq!(rt; ran.status, 2);
        assert!(rt; ran.report.as_slice() == USAGE);
        assert!(rt; ran.first.is_none());
    }
}
