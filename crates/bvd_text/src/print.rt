//! Writing numbers. The text is made on the stack and appended at once, so that a refused growth leaves the bytes as they were.

ghost use Rattle.std.specs.Prelude.{◌≡◌, ◌++◌, ◌<◌, ◌^◌, decimal, length, Ok, OnOk, OnErr};
ghost use Rattle.bvd_text.specs.Numbers.{reading};
ghost use Rattle.bvd_text.specs.Hexadecimal.{hex_digit, hex_digits, hex_text};

use itoa::Buffer;
use std::alloc::AllocError;

/// Appends plain decimal digits, without leading zeros. Where memory is refused, nothing is appended.
#[tactic(auto, using(crate::proofs::Digits::reads_back))]
pub fn push_number(out: &mut Vec<u8>, n: u128) -> Result<(), AllocError>
    ensures ok { OnOk result (out.new.items ≡ out.old.items ++ decimal n) }
    // What is appended reads as the number.
    ensures reads_back { reading (decimal n) ≡ Ok n }
    ensures err { OnErr result (out.new.items ≡ out.old.items) }
{
    let mut buffer = Buffer::new();
    out.extend_from_slice(buffer.format(n).as_bytes())
}

// The lower-case digit of a number below 16.
fn hex_digit(number: u8) -> u8
    requires { number < 16 }
    ensures { result ≡ hex_digit number }
{
    if number < 10 {
        b'0' + number
    } else {
        b'a' + (number - 10)
    }
}

// Fills the text with the last digits of the number.
fn fill_hex(text: &mut [u8], n: u128)
    ensures { text.new ≡ hex_digits (length text.old) n }
{
    let mut rest = n;
    'digits: for place in (0..text.len()).rev() {
        text[place] = hex_digit((rest % 16) as u8);
        rest /= 16;
    }
}

/// Appends `0x` and this many lower-case hexadecimal digits, with zeros in front where the number has fewer. Where
/// memory is refused, nothing is appended.
///
/// Takes time by the number of digits.
#[tactic(auto, using(crate::proofs::HexDigits::hex_reads_back))]
pub fn push_hex(out: &mut Vec<u8>, n: u128, digits: u8) -> Result<(), AllocError>
    requires { n < 16 ^ digits }
    ensures ok { OnOk result (out.new.items ≡ out.old.items ++ hex_text digits n) }
    // What is appended reads as the number, but `0x` alone doesn't.
    ensures reads_back { 0 < digits → reading (hex_text digits n) ≡ Ok n }
    ensures err { OnErr result (out.new.items ≡ out.old.items) }
{
    let end = 2 + usize::from(digits);
    let mut text = [b'0'; 257];
    text[1] = b'x';
    fill_hex(&mut text[2..end], n);
    out.extend_from_slice(&text[..end])
}
