//! The DIMACS text of a formula, appended to bytes, so that a caller may put lines of its own before it.

ghost use Rattle.std.specs.Prelude.{◌≡◌, ◌++◌, OnOk, OnErr, length, take};
ghost use Rattle.sat_form.specs.Dimacs.{literal_text, clause_text, header, dimacs_text};

use crate::cnf::Cnf;
use crate::lit::Lit;
use itoa::Buffer;
use std::alloc::{AllocError, Global};

/// Appends a literal.
fn push_literal(lit: Lit, out: &mut Vec<u8>) -> Result<(), AllocError>
    ensures ok { OnOk result (out.new.items ≡ out.old.items ++ literal_text lit) }
    ensures keeps { take (length out.old.items) out.new.items ≡ out.old.items }
{
    if !lit.positive() {
        out.extend_from_slice(b"-")?;
    }
    let mut buffer = Buffer::new();
    out.extend_from_slice(buffer.format(lit.var()).as_bytes())?;
    Ok(())
}

/// Appends the line of a clause.
fn push_clause(clause: &[Lit], out: &mut Vec<u8>) -> Result<(), AllocError>
    ensures ok { OnOk result (out.new.items ≡ out.old.items ++ clause_text clause.now) }
    ensures keeps { take (length out.old.items) out.new.items ≡ out.old.items }
{
    for lit in clause {
        push_literal(*lit, out)?;
        out.extend_from_slice(b" ")?;
    }
    out.extend_from_slice(b"0\n")?;
    Ok(())
}

/// Appends the first line.
fn push_header(vars: u32, count: usize, out: &mut Vec<u8>) -> Result<(), AllocError>
    ensures ok { OnOk result (out.new.items ≡ out.old.items ++ header vars count) }
    ensures keeps { take (length out.old.items) out.new.items ≡ out.old.items }
{
    let mut buffer = Buffer::new();
    out.extend_from_slice(b"p cnf ")?;
    out.extend_from_slice(buffer.format(vars).as_bytes())?;
    out.extend_from_slice(b" ")?;
    out.extend_from_slice(buffer.format(count).as_bytes())?;
    out.extend_from_slice(b"\n")?;
    Ok(())
}

/// Appends the first line and the line of each clause.
fn push_formula(cnf: &Cnf, out: &mut Vec<u8>) -> Result<(), AllocError>
    ensures ok { OnOk result (out.new.items ≡ out.old.items ++ dimacs_text cnf.now.vars cnf.now.clauses) }
    ensures keeps { take (length out.old.items) out.new.items ≡ out.old.items }
{
    push_header(cnf.vars, cnf.clauses.len(), out)?;
    let mut at = 0;
    while let Some(clause) = cnf.clauses.get(at) {
        push_clause(clause, out)?;
        at += 1;
    }
    Ok(())
}

/// Appends the DIMACS text of a formula; after a refusal `out` holds what it held before.
///
/// The text is the line `p cnf V C` and, for each clause, a line of its literals and `0`, with single spaces
/// and LF at each line's end (DIMACS). O(length of the text).
pub fn dimacs(_alloc: Global, cnf: &Cnf, out: &mut Vec<u8>) -> Result<(), AllocError>
    ensures ok { OnOk result (out.new.items ≡ out.old.items ++ dimacs_text cnf.now.vars cnf.now.clauses) }
    ensures err { OnErr result (out.new.items ≡ out.old.items) }
{
    let before = out.len();
    let written = push_formula(cnf, out);
    if written.is_err() {
        out.truncate(before);
    }
    written
}
