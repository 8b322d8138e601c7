//! The longest sign.

ghost use Rattle.std.specs.Prelude.{◌≡◌, ℕ, ◌<◌, ◌≤◌, length, IsTrue, IsFalse, List, map};
ghost use Rattle.std.specs.List.{Contains};
ghost use Rattle.bv_lex.specs.Words.{Stands};
ghost use Rattle.bv_lex.specs.Signs.{signs};

// Whether the word stands at `at`.
fn stands(text: &[u8], at: usize, word: &[u8]) -> bool
    requires { at ≤ length text.now }
    ensures yes { IsTrue result → Stands text.now at word.now }
    ensures no_ { IsFalse result → Stands text.now at word.now → ⊥ }
{
    for (k, letter) in word.iter().enumerate() {
        if at + k >= text.len() || text[at + k] != *letter {
            return false;
        }
    }
    true
}

// The length of the word where it stands at `at` and is longer than `best`, and else `best`.
fn longer(text: &[u8], at: usize, word: &[u8], best: usize) -> usize
    requires { at ≤ length text.now }
    ensures grows { best ≤ result }
    ensures covers { Stands text.now at word.now → length word.now ≤ result }
    ensures word { best < result → Stands text.now at word.now × (length word.now ≡ result) }
{
    if best < word.len() && stands(text, at, word) {
        word.len()
    } else {
        best
    }
}

// The length of the longest word of the table that stands at `at`, or 0.
fn longest_of(text: &[u8], at: usize, table: &[&[u8]]) -> usize
    requires { at ≤ length text.now }
    ensures there { 0 < result → (w : List ℕ) × Contains (map (λ s. s.now) table.now) w × Stands text.now at w × (length w ≡ result) }
    ensures longest { (w : List ℕ) → Contains (map (λ s. s.now) table.now) w → Stands text.now at w → length w ≤ result }
{
    let mut best = 0;
    for sign in table.iter() {
        best = longer(text, at, sign, best);
    }
    best
}

const SIGNS: [&[u8]; 45] = [
    b"(",
    b")",
    b"{",
    b"}",
    b":",
    b":=",
    b".",
    b",",
    b";",
    b"#",
    b"~~~",
    b"<<<",
    b">>>",
    b"-",
    b"*",
    b"/",
    b"%",
    b"+",
    b"++",
    b"&&&",
    b"^^^",
    b"|||",
    b"=",
    b"\xE2\x89\xA0",
    b"==",
    b"!=",
    b"<",
    b"\xE2\x89\xA4",
    b"<=",
    b">",
    b"\xE2\x89\xA5",
    b">=",
    b"\xC2\xAC",
    b"!",
    b"\xE2\x88\xA7",
    b"/\\",
    b"&&",
    b"^^",
    b"\xE2\x88\xA8",
    b"\\/",
    b"||",
    b"\xE2\x86\x92",
    b"->",
    b"\xE2\x86\x94",
    b"<->",
];

/// The length of the longest sign that stands at `at`, or 0.
pub(crate) fn sign_length(text: &[u8], at: usize) -> usize
    requires { at ≤ length text.now }
    ensures there { 0 < result → (w : List ℕ) × Contains signs w × Stands text.now at w × (length w ≡ result) }
    ensures longest { (w : List ℕ) → Contains signs w → Stands text.now at w → length w ≤ result }
{
    longest_of(text, at, &SIGNS)
}
