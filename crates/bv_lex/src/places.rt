//! Places behind bytes.

ghost use Rattle.std.specs.Prelude.{◌≡◌, ◌+◌, ◌^◌, ◌<◌, ◌≤◌, length, take};
ghost use Rattle.bvd_text.specs.Places.{place_behind};
ghost use Rattle.bv_lex.specs.Passed as spec;

use bvd_text::Place;

// The place behind one more byte.
fn past_byte(place: Place, byte: u8) -> Place
    requires line { place.line + 1 < 2 ^ 32 }
    requires column { place.column + 1 < 2 ^ 32 }
    ensures { result ≡ spec.past_byte place byte }
{
    if byte == b'\n' {
        Place {
            line: place.line + 1,
            column: 1,
        }
    } else if byte < 128 || 192 <= byte {
        Place {
            line: place.line,
            column: place.column + 1,
        }
    } else {
        place
    }
}

/// The place behind the first `to` bytes, given that behind the first `from`. Takes time by the bytes between them.
pub(crate) fn place_at(bytes: &[u8], from: usize, to: usize, place: Place) -> Place
    requires size { length bytes.now ≤ 4194304 }
    requires order { from ≤ to }
    requires within { to ≤ length bytes.now }
    requires place { place ≡ place_behind (take from bytes.now) }
    ensures { result ≡ place_behind (take to bytes.now) }
{
    let mut place = place;
    for at in from..to {
        place = past_byte(place, bytes[at]);
    }
    place
}

/// The place behind the last byte of a file of at most 4,194,304 bytes. Takes time by its length.
pub fn end_place(bytes: &[u8]) -> Place
    requires { length bytes.now ≤ 4194304 }
    ensures { result ≡ place_behind bytes.now }
{
    place_at(bytes, 0, bytes.len(), Place { line: 1, column: 1 })
}
