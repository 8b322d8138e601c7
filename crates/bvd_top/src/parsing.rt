//! What the files of a run state. All files are parsed before the first goal is answered; the goals stay where they are, and what is told of them borrows them.
ghost use Rattle.std.specs.Prelude.{◌≡◌, ◌≤◌, All, length, IfOk};
ghost use Rattle.bvd_top.specs.Reading.{IsWithin};
ghost use Rattle.bvd_top.specs.Stated.{most_bytes, IsStatedBy};
ghost use Rattle.bvd_top.specs.Stated as spec;
ghost use Rattle.bvd_top.specs.Shown.{stated_shown};
ghost use Rattle.bvd_top.specs.Parsed.{IsParsed, AreParsed, IsOfFile};

use crate::keeping::keep;
use crate::reading::{FileRead, Read};
use bv_expr::Goal;
use bv_lex::{Fault, FaultKind};
use bv_parse::parse;
use std::alloc::{AllocError, Global};

/// What a file states.
#[derive(Drop)]
pub enum Stated {
    Absent,
    TooLong,
    Faulty(Fault),
    Goals(Vec<Goal>),
}

/// A file of the run: its name as the words have it, and what it states.
#[derive(Drop)]
pub struct File<'a> {
    pub path: &'a str,
    pub stated: Stated,
}

/// That bytes have a fault. Want of memory is none.
fn faulty(fault: Fault) -> Result<Stated, AllocError>
    ensures stated { IfOk result (λ s. stated_shown s ≡ spec.Stated.Faulty fault) }
    ensures of_file { IfOk result IsOfFile }
{
    match fault.kind {
        FaultKind::Memory(error) => Err(error),
        _ => Ok(Stated::Faulty(fault)),
    }
}

/// What bytes state: their goals, or their one fault.
fn stated_by(alloc: Global, bytes: &[u8]) -> Result<Stated, AllocError>
    requires { length bytes.now ≤ most_bytes }
    ensures stated { IfOk result (λ s. IsStatedBy bytes.now (stated_shown s)) }
    ensures of_file { IfOk result IsOfFile }
{
    match parse(alloc, bytes) {
        Ok(goals) => Ok(Stated::Goals(goals)),
        Err(fault) => faulty(fault),
    }
}

/// What a file states of which this was read.
fn stated_in(alloc: Global, content: &FileRead) -> Result<Stated, AllocError>
    requires { IsWithin most_bytes content.now }
    ensures parsed { IfOk result (λ s. IsParsed content.now (stated_shown s)) }
    ensures of_file { IfOk result IsOfFile }
{
    match content {
        FileRead::Absent => Ok(Stated::Absent),
        FileRead::TooLong => Ok(Stated::TooLong),
        FileRead::Bytes(bytes) => stated_by(alloc, bytes),
    }
}

/// What the files state that were read, in order: their goals, or their one fault.
/// Errors: want of memory alone. Cost: that of parsing the files' bytes.
pub fn parse_all<'a>(alloc: Global, reads: &[Read<'a>]) -> Result<Vec<File<'a>>, AllocError>
    requires { All (λ r. IsWithin most_bytes r.content) reads.now }
    ensures parsed { IfOk result (λ files. AreParsed reads.now files.items) }
    ensures of_file { IfOk result (λ files. All (λ f. IsOfFile f.stated) files.items) }
{
    let mut files = Vec::new(alloc);
    'reads: for read in reads {
        let stated = stated_in(alloc, &read.content)?;
        keep(
            &mut files,
            File {
                path: read.path,
                stated,
            },
        )?;
    }
    Ok(files)
}
