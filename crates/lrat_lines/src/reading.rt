//! Lines from text, word by word: no list of words is made, so a line takes the memory of its own lists alone.

ghost use Rattle.std.specs.Prelude.{ℕ, ◌≡◌, ◌∷◌, ◌++◌, ◌≢◌, List, [], IfOk, IsErrOf, IsTrue, ℤ, true, false, decimal, map, length, slice_index};
ghost use Rattle.std.specs.List.{list_all};
ghost use Rattle.std.specs.Fmt.{signed_decimal};
ghost use Rattle.sat_form.specs.Literals.{Literal};
ghost use Rattle.lrat_lines.specs.Lines as lines;
ghost use Rattle.lrat_lines.specs.Lines.{AreWords, IsLine, words_in};
ghost use Rattle.lrat_lines.specs.Lines.Line.{Add, Delete, Skip};
ghost use Rattle.lrat_lines.specs.Seen.{seen};

use crate::line::{Line, LineStop};
use crate::number::Spelled;
use crate::word::{next_word, without_end};
use sat_form::Lit;
use std::alloc::Global;

/// What stands before the next word `0`, and what follows it.
fn until_zero<T: Spelled + Drop>(alloc: Global, text: &[u8]) -> Result<(Vec<T>, &[u8]), LineStop>
    ensures found { IfOk result (λ p. words_in text.now ≡ map T.spelled p.0.items ++ decimal 0 ∷ words_in p.1.now) }
    ensures fits { IfOk result (λ p. list_all T.fits p.0.items ≡ true) }
    ensures only { IfOk result (λ p. (xs : List T) (ws : List (List ℕ)) → list_all T.fits xs ≡ true → words_in text.now ≡ map T.spelled xs ++ decimal 0 ∷ ws → words_in p.1.now ≡ ws) }
    ensures bad { IsErrOf result LineStop.Bad → (xs : List T) (ws : List (List ℕ)) → list_all T.fits xs ≡ true → words_in text.now ≡ map T.spelled xs ++ decimal 0 ∷ ws → ⊥ }
{
    let mut found = Vec::new(alloc);
    let mut rest = text;
    while let Some((word, behind)) = next_word(rest) {
        match T::read(word) {
            Some(item) => found.push(item)?,
            None if word == b"0".as_slice() => return Ok((found, behind)),
            None => return Err(LineStop::Bad),
        }
        rest = behind;
    }
    Err(LineStop::Bad)
}

/// Whether nothing follows.
fn is_end(text: &[u8]) -> bool
    ensures yes { IsTrue result → words_in text.now ≡ [] }
    ensures no { words_in text.now ≡ [] → IsTrue result }
{
    next_word(text).is_none()
}

/// The deletion that follows an id and `d`.
fn deletion(alloc: Global, id: u64, text: &[u8]) -> Result<Line, LineStop>
    requires { lines.is_id id ≡ true }
    ensures line { IfOk result (λ l. AreWords (decimal id ∷ (100 ∷ []) ∷ words_in text.now) (seen l)) }
    ensures bad { IsErrOf result LineStop.Bad → (ids : List ℕ) → list_all lines.is_id ids ≡ true → words_in text.now ≡ map decimal ids ++ decimal 0 ∷ [] → ⊥ }
{
    let (ids, rest) = until_zero::<u64>(alloc, text)?;
    if !is_end(rest) {
        return Err(LineStop::Bad);
    }
    Ok(Line::Delete { id, ids })
}

/// The addition that follows an id.
fn addition(alloc: Global, id: u64, text: &[u8]) -> Result<Line, LineStop>
    requires { lines.is_id id ≡ true }
    ensures line { IfOk result (λ l. AreWords (decimal id ∷ words_in text.now) (seen l)) }
    ensures bad { IsErrOf result LineStop.Bad → (lits : List Literal) (hints : List ℤ) → list_all lines.is_literal lits ≡ true → list_all lines.is_hint hints ≡ true → words_in text.now ≡ map (λ l. signed_decimal (lines.literal_number l)) lits ++ decimal 0 ∷ (map signed_decimal hints ++ decimal 0 ∷ []) → ⊥ }
{
    let (lits, rest) = until_zero::<Lit>(alloc, text)?;
    let (hints, rest) = until_zero::<i64>(alloc, rest)?;
    if !is_end(rest) {
        return Err(LineStop::Bad);
    }
    Ok(Line::Add { id, lits, hints })
}

/// The line that a text is, `text` being one line without its LF.
///
/// `Bad` comes exactly where the text is no line by the grammar. Takes time by the length of the text, and memory by the
/// numbers in it.
pub fn read_line(alloc: Global, text: &[u8]) -> Result<Line, LineStop>
    ensures line { IfOk result (λ l. IsLine text.now (seen l)) }
    ensures bad { IsErrOf result LineStop.Bad → (l : lines.Line) → IsLine text.now l → ⊥ }
{
    let text = without_end(text);
    let Some((first, rest)) = next_word(text) else {
        return Ok(Line::Skip);
    };
    if first[0] == b'c' {
        return Ok(Line::Skip);
    }
    let Some(id) = u64::read(first) else {
        return Err(LineStop::Bad);
    };
    match next_word(rest) {
        Some((word, rest)) if word == b"d".as_slice() => deletion(alloc, id, rest),
        _ => addition(alloc, id, rest),
    }
}
