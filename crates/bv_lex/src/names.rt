//! The characters of names.

ghost use Rattle.std.specs.Prelude.{◌≡◌, ◌<◌, ◌≤◌, ℕ, length, slice_index};
ghost use Rattle.bv_lex.specs.Letters.{begins_name, goes_on_name};
ghost use Rattle.bv_lex.specs.Words.{IsCharacter, Characters};
ghost use Rattle.bv_lex.specs.Encoded as spec;

use crate::runs::byte;

/// Whether a byte is an ASCII letter or `_`.
pub(crate) fn is_ascii_letter(byte: u8) -> bool
    ensures { result ≡ spec.is_ascii_letter byte }
{
    byte.is_ascii_alphabetic() || byte == b'_'
}

// Whether a byte is an ASCII digit or `'`.
fn is_ascii_mark(byte: u8) -> bool
    ensures { result ≡ spec.is_ascii_mark byte }
{
    byte.is_ascii_digit() || byte == b'\''
}

// Whether two bytes are a Greek letter.
fn spell_greek_letter(first: u8, second: u8) -> bool
    ensures { result ≡ spec.spell_greek_letter first second }
{
    match first {
        0xCE => 0xB1 <= second && second <= 0xBF && second != 0xBB,
        0xCF => 0x80 <= second && second <= 0x89,
        _ => false,
    }
}

// Whether three bytes are a subscript digit.
fn spell_subscript(first: u8, second: u8, third: u8) -> bool
    ensures { result ≡ spec.spell_subscript first second third }
{
    first == 0xE2 && second == 0x82 && 0x80 <= third && third <= 0x89
}

/// How many bytes the character takes that stands at `at` and begins a name, or 0 where none does.
pub(crate) fn letter_length(text: &[u8], at: usize) -> usize
    requires { at ≤ length text.now }
    ensures some { 0 < result → IsCharacter begins_name text.now at result }
    ensures none { result ≡ 0 → (n : ℕ) → IsCharacter begins_name text.now at n → ⊥ }
{
    let first = byte(text, at);
    if is_ascii_letter(first) {
        1
    } else if spell_greek_letter(first, byte(text, at + 1)) {
        2
    } else {
        0
    }
}

// How many bytes the character takes that stands at `at` and goes on with a name, or 0 where none does.
fn character_length(text: &[u8], at: usize) -> usize
    requires { at ≤ length text.now }
    ensures some { 0 < result → IsCharacter goes_on_name text.now at result }
    ensures none { result ≡ 0 → (n : ℕ) → IsCharacter goes_on_name text.now at n → ⊥ }
{
    let letter = letter_length(text, at);
    if 0 < letter {
        return letter;
    }
    let first = byte(text, at);
    if is_ascii_mark(first) {
        1
    } else if spell_subscript(first, byte(text, at + 1), byte(text, at + 2)) {
        3
    } else {
        0
    }
}

/// Where the characters end that go on with a name from `from` on.
pub(crate) fn name_end(text: &[u8], from: usize) -> usize
    requires { from ≤ length text.now }
    ensures ahead { from ≤ result }
    ensures within { result ≤ length text.now }
    ensures characters { Characters goes_on_name text.now from result }
    ensures longest { (m : ℕ) → Characters goes_on_name text.now from m → m ≤ result }
{
    let mut at = from;
    'characters: loop {
        let length = character_length(text, at);
        if length == 0 {
            return at;
        }
        at += length;
    }
}
