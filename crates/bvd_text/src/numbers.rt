//! Reading a number in one of three bases, with the exact place at which it stops.

ghost use Rattle.std.specs.Prelude.{◌≡◌, ◌≤◌, ◌<◌, ◌+◌, ◌*◌, ◌^◌, length};
ghost use Rattle.std.specs.Char.{digit_value};
ghost use Rattle.std.specs.Str.Parse.{digits_value, AllDigits};
ghost use Rattle.bvd_text.specs.Numbers as spec;

/// Why a text isn't a number below 2^128.
#[derive(Clone, Copy, Debug, PartialEq, Eq)]
pub enum NumberStop {
    /// The first place, in bytes from the text's start, at which a digit of the base is wanted and none stands.
    NoDigit(usize),
    /// All are digits, and the number is 2^128 or more.
    TooBig,
}

// Whether the text begins with `0` and this letter.
fn has_prefix(text: &[u8], letter: u8) -> bool
    ensures { result ≡ spec.has_prefix letter text.now }
{
    match text {
        [zero, second, ..] => *zero == b'0' && *second == letter,
        _ => false,
    }
}

// The base of the text's digits.
fn base_of(text: &[u8]) -> u32
    ensures { result ≡ spec.base_of text.now }
{
    if has_prefix(text, b'x') {
        16
    } else if has_prefix(text, b'b') {
        2
    } else {
        10
    }
}

// How many bytes stand before the first digit.
#[tactic(auto, using(crate::proofs::Digits::prefix_within))]
fn prefix_length(text: &[u8]) -> usize
    ensures value { result ≡ spec.prefix_length text.now }
    ensures within { result ≤ length text.now }
{
    if has_prefix(text, b'x') || has_prefix(text, b'b') {
        2
    } else {
        0
    }
}

// How many digits of the base stand at the front.
fn digits_read(base: u32, digits: &[u8]) -> usize
    requires low { 2 ≤ base }
    requires high { base ≤ 16 }
    ensures value { result ≡ spec.digits_read base digits.now }
    ensures within { result ≤ length digits.now }
{
    for at in 0..digits.len() {
        if !char::from(digits[at]).is_digit(base) {
            return at;
        }
    }
    digits.len()
}

// The value of a digit.
fn digit(base: u32, byte: u8) -> u32
    requires low { 2 ≤ base }
    requires high { base ≤ 16 }
    requires digit { digit_value byte < base }
    ensures value { result ≡ digit_value byte }
    ensures small { result < 16 }
{
    char::from(byte).to_digit(base).unwrap_or(0)
}

// The number with one more digit, where it is below 2^128.
fn with_digit(base: u32, value: u128, digit: u32) -> Option<u128>
    ensures { result ≡ spec.small (value * base + digit) }
{
    value
        .checked_mul(u128::from(base))?
        .checked_add(u128::from(digit))
}

// The number that digits write, where it is below 2^128.
fn value(base: u32, digits: &[u8]) -> Option<u128>
    requires low { 2 ≤ base }
    requires high { base ≤ 16 }
    requires digits { AllDigits base digits.now }
    ensures { result ≡ spec.small (digits_value base digits.now) }
{
    let mut value: u128 = 0;
    for byte in digits {
        let next = digit(base, *byte);
        value = with_digit(base, value, next)?;
    }
    Some(value)
}

// What digits of a base read as, where this many bytes stand before them.
#[tactic(auto, using(crate::proofs::Digits::all_digits))]
fn read(base: u32, before: usize, digits: &[u8]) -> Result<u128, NumberStop>
    requires low { 2 ≤ base }
    requires high { base ≤ 16 }
    requires fits { before + length digits.now < 2 ^ 64 }
    ensures { result ≡ spec.reading_of base before digits.now }
{
    let read = digits_read(base, digits);
    if 0 < read && read == digits.len() {
        value(base, digits).ok_or(NumberStop::TooBig)
    } else {
        Err(NumberStop::NoDigit(before + read))
    }
}

/// The number that the whole text writes: decimal digits, `0x` and hexadecimal digits of either case, or `0b` and
/// binary digits. Leading zeros are allowed.
///
/// Takes time by the text's length.
pub fn number(text: &[u8]) -> Result<u128, NumberStop>
    ensures { result ≡ spec.reading text.now }
{
    let before = prefix_length(text);
    read(base_of(text), before, &text[before..])
}
