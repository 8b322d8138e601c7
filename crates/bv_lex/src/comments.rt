//! Nested comments.

ghost use Rattle.std.specs.Prelude.{ℕ, IfSome, IfNone};
ghost use Rattle.bv_lex.specs.Pieces.{Closes};

use crate::runs::is_pair;

/// Where the comment ends that is open at `at`, if it is closed.
pub(crate) fn comment_end(text: &[u8], at: usize) -> Option<usize>
    ensures closed { IfSome result (λ end. Closes text.now 1 at end) }
    ensures open_ { IfNone result ((j : ℕ) → Closes text.now 1 at j → ⊥) }
{
    let mut depth: usize = 1;
    let mut i = at;
    while i < text.len() {
        if is_pair(text, i, b'/', b'-') {
            depth += 1;
            i += 2;
        } else if is_pair(text, i, b'-', b'/') {
            depth -= 1;
            i += 2;
            if depth == 0 {
                return Some(i);
            }
        } else {
            i += 1;
        }
    }
    None
}
