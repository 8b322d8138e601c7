//! Lines into text: each word goes straight into the caller's buffer, and nothing is built beside it.

ghost use Rattle.std.specs.Prelude.{◌≡◌, ◌∷◌, ◌++◌, [], map, take, length, true, decimal, is_ok, if◌then◌else◌, OnOk, OnErr};
ghost use Rattle.lrat_lines.specs.Lines.{is_writable, written_line};
ghost use Rattle.lrat_lines.specs.Lines.Line.{Add, Delete};
ghost use Rattle.lrat_lines.specs.Seen.{seen};
ghost use Rattle.lrat_lines.specs.Spaced.{spaced};

use crate::line::Line;
use crate::number::{Spelled, write_number};
use sat_form::Lit;
use std::alloc::AllocError;

/// Appends a space and a word.
fn write_word<T: Spelled>(item: &T, out: &mut Vec<u8>) -> Result<(), AllocError>
    ensures ok { OnOk result (out.new.items ≡ out.old.items ++ 32 ∷ T.spelled item.now) }
    ensures keeps { take (length out.old.items) out.new.items ≡ out.old.items }
{
    out.push(b' ')?;
    item.write(out)
}

/// Appends words and the word `0`, each behind a space.
fn write_until_zero<T: Spelled>(items: &[T], out: &mut Vec<u8>) -> Result<(), AllocError>
    ensures ok { OnOk result (out.new.items ≡ out.old.items ++ spaced (map T.spelled items.now ++ decimal 0 ∷ [])) }
    ensures keeps { take (length out.old.items) out.new.items ≡ out.old.items }
{
    for item in items {
        write_word(item, out)?;
    }
    out.extend_from_slice(b" 0")
}

/// Appends an addition; where memory is wanting, a part of it.
fn append_addition(
    id: u64,
    lits: &[Lit],
    hints: &[i64],
    out: &mut Vec<u8>,
) -> Result<(), AllocError>
    ensures ok { OnOk result (out.new.items ≡ out.old.items ++ written_line (Add id lits.now hints.now)) }
    ensures keeps { take (length out.old.items) out.new.items ≡ out.old.items }
{
    write_number(id, out)?;
    write_until_zero(lits, out)?;
    write_until_zero(hints, out)?;
    Ok(out.push(b'\n')?)
}

/// Appends a deletion; where memory is wanting, a part of it.
fn append_deletion(id: u64, ids: &[u64], out: &mut Vec<u8>) -> Result<(), AllocError>
    ensures ok { OnOk result (out.new.items ≡ out.old.items ++ written_line (Delete id ids.now)) }
    ensures keeps { take (length out.old.items) out.new.items ≡ out.old.items }
{
    write_number(id, out)?;
    out.extend_from_slice(b" d")?;
    write_until_zero(ids, out)?;
    Ok(out.push(b'\n')?)
}

/// Appends a line; where memory is wanting, a part of it.
fn append_line(line: &Line, out: &mut Vec<u8>) -> Result<(), AllocError>
    requires { is_writable (seen line.now) ≡ true }
    ensures ok { OnOk result (out.new.items ≡ out.old.items ++ written_line (seen line.now)) }
    ensures keeps { take (length out.old.items) out.new.items ≡ out.old.items }
{
    match line {
        Line::Add { id, lits, hints } => append_addition(*id, lits, hints, out),
        Line::Delete { id, ids } => append_deletion(*id, ids, out),
        Line::Skip => Ok(()),
    }
}

/// Appends the line that adds a clause under an id, from its parts, as `write_line` does: a caller who has them elsewhere
/// makes no `Line` for it.
///
/// Where memory is wanting `out` is cut back to what it was. Takes time and memory by the length of the line's text.
pub fn write_addition(
    id: u64,
    lits: &[Lit],
    hints: &[i64],
    out: &mut Vec<u8>,
) -> Result<(), AllocError>
    ensures ok { OnOk result (out.new.items ≡ out.old.items ++ written_line (Add id lits.now hints.now)) }
    ensures err { OnErr result (out.new.items ≡ out.old.items) }
{
    let before = out.len();
    let written = append_addition(id, lits, hints, out);
    if written.is_err() {
        out.truncate(before);
    }
    written
}

/// Appends a line in its one spelling: single spaces, and LF behind it.
///
/// Where memory is wanting `out` is cut back to what it was. Takes time and memory by the length of the line's text.
pub fn write_line(line: &Line, out: &mut Vec<u8>) -> Result<(), AllocError>
    requires { is_writable (seen line.now) ≡ true }
    ensures ok { OnOk result (out.new.items ≡ out.old.items ++ written_line (seen line.now)) }
    ensures err { OnErr result (out.new.items ≡ out.old.items) }
{
    let length = out.len();
    let written = append_line(line, out);
    if written.is_err() {
        out.truncate(length);
    }
    written
}
