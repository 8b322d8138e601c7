//! Numbers, as words: what may stand in a line, how each is spelled, and that the spelling is the only one.

ghost use Rattle.std.specs.Prelude.{ℕ, ℤ, ◌++◌, is_ok, if◌then◌else◌, ◌≡◌, ◌<◌, ◌≤◌, ◌^◌, IfSome, IfNone, IsTrue, decimal, true, List, slice_index, ◌≢◌};
ghost use Rattle.lrat_lines.specs.Sign.{with_sign};
ghost use Rattle.lrat_lines.specs.Lines as lines;

use itoa::{Buffer, Integer};
use sat_form::Lit;
use std::alloc::AllocError;

/// A number that goes on behind this one isn't below 2^63; nothing overflows below it.
const LARGE: u64 = 1 << 60;

/// The number that a word spells.
fn number(word: &[u8]) -> Option<u64>
    ensures some { IfSome result (λ n. word.now ≡ decimal n) }
    ensures small { IfSome result (λ n. n < 2 ^ 64) }
    ensures none { IfNone result ((n : ℕ) → n < 2 ^ 63 → word.now ≡ decimal n → ⊥) }
{
    if word.is_empty() {
        return None;
    }
    if word[0] == b'0' && word.len() > 1 {
        return None;
    }
    let mut value = 0;
    for byte in word {
        if !byte.is_ascii_digit() {
            return None;
        }
        if value >= LARGE {
            return None;
        }
        value = value * 10 + u64::from(*byte - b'0');
    }
    Some(value)
}

/// The number from 1 up to `end` that a word spells.
fn number_below(word: &[u8], end: u64) -> Option<u64>
    requires { end ≤ 2 ^ 63 }
    ensures some { IfSome result (λ n. word.now ≡ decimal n) }
    ensures range { IfSome result (λ n. (0 < n) × (n < end)) }
    ensures none { IfNone result ((n : ℕ) → 0 < n → n < end → word.now ≡ decimal n → ⊥) }
{
    let value = number(word)?;
    if 0 < value && value < end {
        Some(value)
    } else {
        None
    }
}

/// Whether a word has no sign, and what follows the sign.
fn signed(word: &[u8]) -> (bool, &[u8])
    ensures parts { word.now ≡ with_sign result.0 result.1.now }
    ensures positive { IsTrue result.0 → slice_index word.now 0 ≢ 45 }
{
    if !word.is_empty() && word[0] == b'-' {
        (false, &word[1..])
    } else {
        (true, word)
    }
}

/// What stands in a line, and has one spelling.
pub(crate) trait Spelled: Sized {
    ghost use Rattle.std.specs.Prelude.{Bool, true, List, ℕ, ◌≡◌, ◌≢◌, ◌++◌, is_ok, if◌then◌else◌};
    ghost use Rattle.std.specs.Fmt.{decimal};

    /// Its word.
    ghost spelled: { Self → List ℕ };

    /// Whether it may stand in a line.
    ghost fits: { Self → Bool };

    /// What a word spells, which isn't the word `0`.
    fn read(word: &[u8]) -> Option<Self>
        ensures some { IfSome result (λ x. word.now ≡ spelled x) }
        ensures fits { IfSome result (λ x. fits x ≡ true) }
        ensures nonzero { IfSome result (λ _. word.now ≢ decimal 0) }
        ensures none { IfNone result ((x : Self) → fits x ≡ true → word.now ≡ spelled x → ⊥) };

    /// Appends its word.
    fn write(&self, out: &mut Vec<u8>) -> Result<(), AllocError>
        ensures written { out.new.items ≡ (if is_ok result then out.old.items ++ spelled self.now else out.old.items) };
}

/// Appends a number in decimal.
pub(crate) fn write_number<I: Integer>(number: I, out: &mut Vec<u8>) -> Result<(), AllocError>
    ensures written { out.new.items ≡ (if is_ok result then out.old.items ++ I.text number else out.old.items) }
{
    let mut buffer = Buffer::new();
    out.extend_from_slice(buffer.format(number).as_bytes())
}

/// A literal as a number: its variable, negated for a negative one.
fn literal_number(lit: Lit) -> i64
    ensures { result ≡ lines.literal_number lit }
{
    let var = i64::from(lit.var());
    if lit.positive() { var } else { -var }
}

impl Spelled for u64 {
    ghost spelled = { λ n. decimal n };

    ghost fits = { λ n. lines.is_id n };

    fn read(word: &[u8]) -> Option<u64> {
        number_below(word, 1 << 63)
    }

    fn write(&self, out: &mut Vec<u8>) -> Result<(), AllocError> {
        write_number(*self, out)
    }
}

impl Spelled for Lit {
    ghost use Rattle.std.specs.Fmt.{signed_decimal};
    ghost use Rattle.lrat_lines.specs.Lines.{literal_number, is_literal};

    ghost spelled = { λ l. signed_decimal (literal_number l) };

    ghost fits = { λ l. is_literal l };

    fn read(word: &[u8]) -> Option<Lit> {
        let (positive, digits) = signed(word);
        match number_below(digits, 1 << 31) {
            Some(var) => Some(Lit::new(var as u32, positive)),
            None => None,
        }
    }

    fn write(&self, out: &mut Vec<u8>) -> Result<(), AllocError> {
        write_number(literal_number(*self), out)
    }
}

impl Spelled for i64 {
    ghost use Rattle.std.specs.Fmt.{signed_decimal};
    ghost use Rattle.lrat_lines.specs.Lines.{is_hint};

    ghost spelled = { λ z. signed_decimal z };

    ghost fits = { λ z. is_hint z };

    fn read(word: &[u8]) -> Option<i64> {
        let (positive, digits) = signed(word);
        match number_below(digits, 1 << 63) {
            Some(id) if positive => Some(id as i64),
            Some(id) => Some(-(id as i64)),
            None => None,
        }
    }

    fn write(&self, out: &mut Vec<u8>) -> Result<(), AllocError> {
        write_number(*self, out)
    }
}
