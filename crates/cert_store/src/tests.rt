//! Each call once with ample memory, and a write that fails in the middle.
use crate::{StoreStop, fetch, put};
use bvd_host::{Keeper, MapKeeper, Source};
use std::alloc::{AllocError, Global};
use std::collections::BTreeMap;
use std::test::Fail;

/// A keeper of one file `a`, one of whose writes fails.
fn keeper_of(alloc: Global, call: u64) -> Result<MapKeeper, AllocError> {
    let mut files = BTreeMap::new(alloc);
    files.insert(String::from_str(alloc, "a")?, b"older".to_vec(alloc)?)?;
    Ok(MapKeeper::new(alloc, files, Vec::new(alloc), vec![in alloc; call]?))
}

/// How many bytes the file under a name gives, 9 where it isn't opened.
fn count_of<K: Keeper>(keeper: &mut K, name: &str, piece: &mut [u8]) -> usize {
    match fetch(keeper, name) {
        Ok(file) => {
            let mut file = file;
            file.read(piece).unwrap_or(8)
        }
        Err(StoreStop::Absent) => 9,
        Err(_) => 10,
    }
}

#[test]
fn what_is_put_is_fetched(rt: HostRuntime) -> Result<(), Fail> {
    let table = [
        (0, true, 3, *b"new\0\0\0"),
        (1, false, 5, *b"older\0"),
        (2, false, 0, *b"\0\0\0\0\0\0"),
    ];
    for (call, whole, count, bytes) in table {
        let mut keeper = keeper_of(rt.alloc(), call)?;
        assert_eq!(rt;
            put(&mut keeper, "a", b"new").is_ok(),
            whole,
            "write {call} failing"
        );
        let mut piece = [0u8; 6];
        assert_eq!(rt;
            count_of(&mut keeper, "a", &mut piece),
            count,
            "write {call} failing"
        );
        assert_eq!(rt; piece, bytes, "write {call} failing");
        assert_eq!(rt;
            count_of(&mut keeper, "b", &mut piece),
            9,
            "write {call} failing"
        );
        // A refused search makes no file.
        assert_eq!(rt; keeper.files().len(), 1, "write {call} failing");
    }
    Ok(())
}

/// Its third write fails, which would add the second piece.
#[test]
fn a_long_text_is_put_in_pieces(rt: HostRuntime) -> Result<(), Fail> {
    let mut keeper = keeper_of(rt.alloc(), 3)?;
    let text = vec![in rt.alloc(); b'x'; 100_000]?;
    assert!(rt; put(&mut keeper, "a", &text).is_err());
    assert_eq!(rt; keeper.size("a").unwrap_or(0), 65536);
    Ok(())
}
