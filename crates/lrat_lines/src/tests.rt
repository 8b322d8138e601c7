//! Lines as they are read, and written again.

use crate::{Line, LineStop, read_line, write_line};
use std::alloc::{AllocError, Global};

/// What a text reads as, written again.
fn rewritten(alloc: Global, text: &[u8]) -> Result<Vec<u8>, AllocError> {
    let mut out = Vec::new(alloc);
    match read_line(alloc, text) {
        Ok(Line::Skip) => out.extend_from_slice(b"skipped")?,
        Ok(line) => write_line(&line, &mut out)?,
        Err(LineStop::Bad) => out.extend_from_slice(b"bad")?,
        Err(LineStop::Memory(error)) => return Err(error),
    }
    Ok(out)
}

const ROWS: [(&[u8], &[u8]); 18] = [
    (b"3 0 1 2 0", b"3 0 1 2 0\n"),
    (b"24 2 0 23 21 5 8 12 19 0", b"24 2 0 23 21 5 8 12 19 0\n"),
    (b" \t3  0\t1 2 0 \t\r", b"3 0 1 2 0\n"),
    (
        b"7 -2147483647 4 0 -9 1 -9223372036854775807 0",
        b"7 -2147483647 4 0 -9 1 -9223372036854775807 0\n",
    ),
    (b"3 d 9 0", b"3 d 9 0\n"),
    (b"3 d 0", b"3 d 0\n"),
    (b"3 0 0", b"3 0 0\n"),
    (b"", b"skipped"),
    (b"\r", b"skipped"),
    (b"  c bvd 2", b"skipped"),
    (b"3 0 1", b"bad"),
    (b"03 0 1 2 0", b"bad"),
    (b"+3 0 1 2 0", b"bad"),
    (b"3 2147483648 0 0", b"bad"),
    (b"9223372036854775808 0 1 2 0", b"bad"),
    (b"0 d 9 0", b"bad"),
    (b"3 0 1 2 0 4", b"bad"),
    (b"3 d -9 0", b"bad"),
];

#[test]
fn lines_both_ways(rt: HostRuntime) {
    for (text, wanted) in &ROWS {
        let got = rewritten(rt.alloc(), text).expect(&rt, "memory");
        assert!(rt; got.as_slice() == *wanted);
    }
}
