//! What is read of the items of a command line: its flags, numbers and files. Nothing here knows a command.
ghost use Rattle.std.specs.Prelude.{◌≡◌, ℕ, List, option_map, map, Some, None, IfOk, nat_le, if◌then◌else◌};
ghost use Rattle.std.specs.List.{list_all};
ghost use Rattle.bvd_words.specs.Words.{names_of, each_once, is_in, has_flag, text_of, files_of};
ghost use Rattle.bvd_words.specs.Requests.{value_from, number_in, number_or, is_digit};
ghost use Rattle.bvd_words.specs.Shown.{items_shown};

use crate::reader::Item;
use std::alloc::{AllocError, Global};

/// Whether an option is among the items.
fn is_named(items: &[Item<'_>], name: &str) -> bool
    ensures { result ≡ is_in name.now (names_of (items_shown items.now)) }
{
    for item in items {
        match *item {
            Item::Flag(x) if x == name => return true,
            Item::Valued(x, _) if x == name => return true,
            _ => {}
        }
    }
    false
}

/// Whether each option is there at most once. Cost: quadratic in the number of options.
pub fn is_each_once(items: &[Item<'_>]) -> bool
    ensures { result ≡ each_once (names_of (items_shown items.now)) }
{
    for i in 0..items.len() {
        match items[i] {
            Item::Flag(x) | Item::Valued(x, _) => {
                if is_named(&items[i + 1..], x) {
                    return false;
                }
            }
            Item::File(_) => {}
        }
    }
    true
}

/// Whether a flag is there.
pub fn has_flag(items: &[Item<'_>], name: &str) -> bool
    ensures { result ≡ has_flag name.now (items_shown items.now) }
{
    for item in items {
        match *item {
            Item::Flag(x) if x == name => return true,
            _ => {}
        }
    }
    false
}

/// The text of the first option of this name, where it is there.
pub fn text_of<'a>(items: &[Item<'a>], name: &str) -> Option<&'a str>
    ensures { option_map (λ s. s.now) result ≡ text_of name.now (items_shown items.now) }
{
    for item in items {
        match *item {
            Item::Valued(x, text) if x == name => return Some(text),
            _ => {}
        }
    }
    None
}

/// The files, in the order of the words. Errors: want of memory alone.
pub fn files_of<'a>(alloc: Global, items: &[Item<'a>]) -> Result<Vec<&'a str>, AllocError>
    ensures { IfOk result (λ files. map (λ f. f.now) files.items ≡ files_of (items_shown items.now)) }
{
    let mut files = Vec::new(alloc);
    for item in items {
        match *item {
            Item::File(name) => files.push(name)?,
            _ => {}
        }
    }
    Ok(files)
}

/// The number that digits stand for, where it is at most `most`.
fn value_within(digits: &[u8], most: u64) -> Option<u64>
    ensures { result ≡ (if nat_le (value_from 0 digits.now) most then Some (value_from 0 digits.now) else None) }
{
    let mut value = 0u64;
    for digit in digits {
        let next = 10 * value as u128 + digit.saturating_sub(48) as u128;
        if next > most as u128 {
            return None;
        }
        value = next as u64;
    }
    Some(value)
}

/// Whether all bytes are decimal digits.
fn is_all_digits(text: &[u8]) -> bool
    ensures { result ≡ list_all is_digit text.now }
{
    for byte in text {
        if *byte < 48 || *byte > 57 {
            return false;
        }
    }
    true
}

/// The number of a text of one to ten decimal digits, where it is within bounds; leading zeros count as digits.
pub fn number_in(text: &str, least: u64, most: u64) -> Option<u64>
    ensures { result ≡ number_in least most text.now }
{
    let digits = text.as_bytes();
    if digits.is_empty() || digits.len() > 10 || !is_all_digits(digits) {
        return None;
    }
    let value = value_within(digits, most)?;
    if value < least { None } else { Some(value) }
}

/// The number of an option that may be left out, which then has its default.
pub fn number_or(default: u64, least: u64, most: u64, text: Option<&str>) -> Option<u64>
    ensures { result ≡ number_or default least most (option_map (λ t. t.now) text.entry) }
{
    match text {
        Some(text) => number_in(text, least, most),
        None => Some(default),
    }
}
