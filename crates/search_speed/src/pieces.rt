//! The certificate's text in pieces, so that it's never held whole.

use lrat_trim::Log;
use std::alloc::Global;
use std::fs::File;
use std::io::{self, Write};

/// From so many bytes on a piece is passed on.
const PIECE: usize = 1 << 12;

/// Passes a piece on to the file, if there is one, and empties it. Answers how many bytes were passed on by then.
fn put(file: &mut Option<File>, piece: &mut Vec<u8>, before: u64) -> io::Result<u64> {
    if let Some(file) = file {
        file.write_all(piece)?;
    }
    let length = before.saturating_add(piece.len() as u64);
    piece.clear();
    Ok(length)
}

/// Writes the text of the trimmed lines into a file, if there is one. Answers how many bytes it has.
pub fn write(alloc: Global, log: &Log, file: Option<File>) -> io::Result<u64> {
    let mut file = file;
    let mut trimming = match log.trimming() {
        Ok(trimming) => trimming,
        Err(refused) => return Err(io::Error::from(refused)),
    };
    let mut piece = Vec::new(alloc);
    let mut length = 0;
    while trimming.write_next(&mut piece)? {
        if piece.len() >= PIECE {
            length = put(&mut file, &mut piece, length)?;
        }
    }
    put(&mut file, &mut piece, length)
}
