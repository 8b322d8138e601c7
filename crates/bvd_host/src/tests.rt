//! The objects in memory fail at the listed calls, and the real devices keep what they are given, which no clause says.
use crate::{
    DiskKeeper, KeepStop, Keeper, MapKeeper, Sink, SliceSource, Source, StdoutSink, VecSink,
};
use std::alloc::{AllocError, Global};
use std::collections::BTreeMap;
use std::rt::Files;
use std::test::Fail;
use std::{fs, io};

/// One word for an answer of a keeper.
fn word<T: Drop>(answer: Result<T, KeepStop>) -> &'static str {
    match answer {
        Ok(_) => "ok",
        Err(KeepStop::Absent) => "absent",
        Err(KeepStop::Failed) => "failed",
        Err(KeepStop::Memory(_)) => "memory",
    }
}

/// A keeper of one file `a`, of whose reads and writes those with this number fail.
fn keeper_of(alloc: Global, call: u64) -> Result<MapKeeper, AllocError> {
    let mut files = BTreeMap::new(alloc);
    files.insert(String::from_str(alloc, "a")?, b"abc".to_vec(alloc)?)?;
    let reads = vec![in alloc; call]?;
    let writes = vec![in alloc; call]?;
    Ok(MapKeeper::new(alloc, files, reads, writes))
}

/// Four reads and four writes, one after the other.
fn call_of<K: Keeper>(keeper: &mut K, number: usize) -> &'static str {
    let mut piece = [0u8; 4];
    match number {
        0 => word(keeper.size("a")),
        1 => word(keeper.read_at("a", 1, &mut piece)),
        2 => word(keeper.size("b")),
        3 => word(keeper.read_at("b", 0, &mut piece)),
        4 => word(keeper.create("c")),
        5 => word(keeper.append("a", b"de")),
        6 => word(keeper.append("d", b"f")),
        _ => word(keeper.create("a")),
    }
}

/// What they answer where none fails.
const ANSWERS: [&str; 8] = ["ok", "ok", "absent", "absent", "ok", "ok", "absent", "ok"];

#[test]
fn the_listed_calls_of_a_keeper_fail(rt: HostRuntime) -> Result<(), Fail> {
    for call in 0..6u64 {
        let mut keeper = keeper_of(rt.alloc(), call)?;
        for number in 0..8usize {
            let fails = number as u64 % 4 + 1 == call;
            let want = if fails { "failed" } else { ANSWERS[number] };
            assert_eq!(rt;
                call_of(&mut keeper, number),
                want,
                "call {number} of 8, {call} failing"
            );
        }
    }
    Ok(())
}

/// One write and one read: how many bytes, 9 where the call failed.
fn count_of<S: Sink, R: Source>(sink: &mut S, source: &mut R) -> (usize, usize) {
    let mut piece = [0u8; 4];
    let taken = sink.write(b"ab").unwrap_or(9);
    let given = source.read(&mut piece).unwrap_or(9);
    (taken, given)
}

#[test]
fn the_listed_calls_of_a_sink_and_a_source_fail(rt: HostRuntime) -> Result<(), Fail> {
    let table = [
        (0, [2, 2, 2, 2], [2, 2, 1, 0]),
        (1, [9, 2, 2, 2], [9, 2, 2, 1]),
        (2, [2, 9, 2, 2], [2, 9, 2, 1]),
        (3, [2, 2, 9, 2], [2, 2, 9, 1]),
        (4, [2, 2, 2, 9], [2, 2, 1, 9]),
    ];
    for (call, taken, given) in table {
        let alloc = rt.alloc();
        let mut sink = VecSink::new(alloc, vec![in alloc; call]?);
        let mut source = SliceSource::new(b"ABCDE", 2, vec![in alloc; call]?);
        for number in 0..4usize {
            let counts = count_of(&mut sink, &mut source);
            assert_eq!(rt;
                counts,
                (taken[number], given[number]),
                "call {number}, {call} failing"
            );
        }
    }
    Ok(())
}

/// A folder of this test's own.
const FOLDER: &str = "bvd_host_test";

/// A file in it.
const PATH: &str = "bvd_host_test/a";

/// A keeper of real files in an empty folder.
fn disk_of<R: Files + Alloc>(rt: &R) -> io::Result<DiskKeeper<'_, R>> {
    let _gone = fs::remove_dir_all(rt, FOLDER);
    fs::create_dir(rt, FOLDER)?;
    Ok(DiskKeeper::new(rt))
}

/// Makes the file hold these bytes alone.
fn rewrite<K: Keeper>(keeper: &mut K, bytes: &[u8]) -> &'static str {
    match keeper.create(PATH) {
        Ok(()) => word(keeper.append(PATH, bytes)),
        Err(e) => word::<()>(Err(e)),
    }
}

#[test]
fn real_files_keep_what_is_added(rt: HostRuntime) -> Result<(), Fail> {
    let mut keeper = disk_of(&rt)?;
    assert_eq!(rt; word(keeper.size(PATH)), "absent");
    assert_eq!(rt; rewrite(&mut keeper, b"abc"), "ok");
    assert_eq!(rt; rewrite(&mut keeper, b"defgh"), "ok");
    assert_eq!(rt; word(keeper.append(PATH, b"ij")), "ok");
    assert_eq!(rt; keeper.size(PATH).unwrap_or(0), 7);
    let mut piece = [0u8; 8];
    assert_eq!(rt; keeper.read_at(PATH, 1, &mut piece).unwrap_or(0), 6);
    assert_eq!(rt; piece, *b"efghij\0\0");
    assert_eq!(rt; StdoutSink::new(&rt).write(b"written\n").unwrap_or(0), 8);
    fs::remove_dir_all(&rt, FOLDER)?;
    Ok(())
}

#[test]
fn real_files_are_read_from_an_offset_on(rt: HostRuntime) -> Result<(), Fail> {
    let mut keeper = disk_of(&rt)?;
    assert_eq!(rt; rewrite(&mut keeper, &[b'a'; 4096]), "ok");
    assert_eq!(rt; word(keeper.append(PATH, b"bcd")), "ok");
    let mut piece = [0u8; 4];
    for (from, count, bytes) in [
        (4095, 4, *b"abcd"),
        (4096, 3, *b"bcdd"),
        (4098, 1, *b"dcdd"),
        (4099, 0, *b"dcdd"),
        (9000, 0, *b"dcdd"),
    ] {
        assert_eq!(rt;
            keeper.read_at(PATH, from, &mut piece).unwrap_or(9),
            count,
            "from {from}"
        );
        assert_eq!(rt; piece, bytes, "from {from}");
    }
    fs::remove_dir_all(&rt, FOLDER)?;
    Ok(())
}

#[test]
fn only_a_missing_file_is_absent(rt: HostRuntime) -> Result<(), Fail> {
    let mut keeper = disk_of(&rt)?;
    assert_eq!(rt; rewrite(&mut keeper, b"abc"), "ok");
    let mut piece = [0u8; 4];
    // A folder can't be read as a file, and a file isn't a folder.
    assert_eq!(rt; word(keeper.read_at(FOLDER, 0, &mut piece)), "failed");
    assert_eq!(rt; word(keeper.create(FOLDER)), "failed");
    assert_eq!(rt; word(keeper.size("bvd_host_test/a/b")), "failed");
    assert_eq!(rt; word(keeper.size("bvd_host_test/b")), "absent");
    assert_eq!(rt;
        word(keeper.read_at("bvd_host_test/b", 0, &mut piece)),
        "failed"
    );
    assert_eq!(rt; word(keeper.append("bvd_host_test/b", b"abc")), "failed");
    fs::remove_dir_all(&rt, FOLDER)?;
    Ok(())
}
