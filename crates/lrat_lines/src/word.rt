//! The words of a line, taken off its front one by one.

ghost use Rattle.std.specs.Prelude.{ℕ, ◌≡◌, ◌∷◌, ◌<◌, ◌≤◌, IfSome, IfNone, [], length, slice_index, true, false};
ghost use Rattle.lrat_lines.specs.Lines as lines;
ghost use Rattle.lrat_lines.specs.Lines.{words_in};

/// Whether a byte separates words.
fn is_blank(byte: u8) -> bool
    ensures { result ≡ lines.is_blank byte }
{
    byte == b' ' || byte == b'\t'
}

/// Whether a byte doesn't count at the end of a line.
fn is_end(byte: u8) -> bool
    ensures { result ≡ lines.is_end byte }
{
    is_blank(byte) || byte == b'\r'
}

/// The line without the spaces, tabs and CR at its end.
pub(crate) fn without_end(text: &[u8]) -> &[u8]
    ensures { result.now ≡ lines.without_end text.now }
{
    let mut end = text.len();
    while end > 0 && is_end(text[end - 1]) {
        end -= 1;
    }
    &text[..end]
}

/// How many blanks a text begins with.
fn blanks(text: &[u8]) -> usize
    ensures within { result ≤ length text.now }
    ensures blank { (k : ℕ) → k < result → lines.is_blank (slice_index text.now k) ≡ true }
    ensures then { result < length text.now → lines.is_blank (slice_index text.now result) ≡ false }
{
    for (at, byte) in text.iter().enumerate() {
        if !is_blank(*byte) {
            return at;
        }
    }
    text.len()
}

/// How many bytes stand before the first blank.
fn word_length(text: &[u8]) -> usize
    ensures within { result ≤ length text.now }
    ensures word { (k : ℕ) → k < result → lines.is_blank (slice_index text.now k) ≡ false }
    ensures then { result < length text.now → lines.is_blank (slice_index text.now result) ≡ true }
{
    for (at, byte) in text.iter().enumerate() {
        if is_blank(*byte) {
            return at;
        }
    }
    text.len()
}

/// The first word, and what follows it.
pub(crate) fn next_word(text: &[u8]) -> Option<(&[u8], &[u8])>
    ensures none { IfNone result (words_in text.now ≡ []) }
    ensures some { IfSome result (λ p. words_in text.now ≡ p.0.now ∷ words_in p.1.now) }
    ensures nonempty { IfSome result (λ p. 0 < length p.0.now) }
    ensures shorter { IfSome result (λ p. length p.1.now < length text.now) }
{
    let (_, from_word) = text.split_at(blanks(text));
    if from_word.is_empty() {
        return None;
    }
    Some(from_word.split_at(word_length(from_word)))
}
