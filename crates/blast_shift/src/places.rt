//! Numbers of places that bits move.

ghost use Rattle.std.specs.Prelude.{◌≡◌, min};

// A number of places, at most this many.
pub(crate) fn capped(n: u128, most: usize) -> usize
    ensures { result ≡ min n most }
{
    if n < most as u128 { n as usize } else { most }
}
