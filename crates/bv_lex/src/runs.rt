//! Runs of bytes that pass one test, and single bytes.

ghost use Rattle.std.specs.Prelude.{◌≡◌, ◌+◌, ◌<◌, ◌≤◌, ℕ, ◌∷◌, [], IsTrue, IsFalse, length, slice_index};
ghost use Rattle.bv_lex.specs.Words.{Stands, Each};
ghost use Rattle.bv_lex.specs.Runs.{belongs};

/// What a run of bytes is.
#[derive(Clone, Copy)]
pub(crate) enum Run {
    /// Bytes that don't end a line.
    Line,
    /// Bytes that may stand between the quotes of a string.
    String,
    /// Decimal digits.
    Decimal,
    /// Hexadecimal digits of either case.
    Hexadecimal,
    /// Binary digits.
    Binary,
}

impl Run {
    // Whether a byte belongs to the run.
    fn has(self, byte: u8) -> bool
        ensures { result ≡ belongs self byte }
    {
        match self {
            Run::Line => byte != b'\n',
            Run::String => !(byte == b'"' || byte == b'\\' || byte == b'\n'),
            Run::Decimal => char::from(byte).is_digit(10),
            Run::Hexadecimal => char::from(byte).is_digit(16),
            Run::Binary => char::from(byte).is_digit(2),
        }
    }
}

/// Where the run ends that begins at `from`.
pub(crate) fn run_end(text: &[u8], from: usize, run: Run) -> usize
    requires { from ≤ length text.now }
    ensures ahead { from ≤ result }
    ensures within { result ≤ length text.now }
    ensures each { Each (belongs run) text.now from result }
    ensures longest { (m : ℕ) → from ≤ m → Each (belongs run) text.now from m → m ≤ result }
{
    for at in from..text.len() {
        if !run.has(text[at]) {
            return at;
        }
    }
    text.len()
}

/// The byte at `at`, or 0 behind the end.
pub(crate) fn byte(text: &[u8], at: usize) -> u8
    ensures { result ≡ slice_index text.now at }
{
    if at < text.len() { text[at] } else { 0 }
}

/// Whether these two bytes, neither of them 0, stand at `at`.
pub(crate) fn is_pair(text: &[u8], at: usize, first: u8, second: u8) -> bool
    requires at { at < length text.now }
    requires first { 0 < first }
    requires second { 0 < second }
    ensures yes { IsTrue result → Stands text.now at (first ∷ second ∷ []) × (at + 1 < length text.now) }
    ensures no_ { IsFalse result → Stands text.now at (first ∷ second ∷ []) → ⊥ }
{
    byte(text, at) == first && byte(text, at + 1) == second
}
