//! The goals of a file, whose pieces stand one behind the other.

ghost use Rattle.std.specs.Prelude.{◌≡◌, ◌<◌, ◌≤◌, [], ◌∷◌, List, length, take, drop};
ghost use Rattle.bv_trees.specs.Codes.{goal_pieces};
ghost use Rattle.bv_trees.specs.Trees.{Goal};
ghost use Rattle.bv_typing.specs.Faults as spec;

use bv_trees::Piece;

/// The number of pieces up to the end of the first goal. Takes time linear in it.
pub fn goal_end(pieces: &[Piece]) -> usize
    ensures value { result ≡ spec.goal_end pieces.now }
    ensures some { 0 < length pieces.now → 0 < result }
    ensures within { result ≤ length pieces.now }
    ensures first { (g : Goal) (gs : List Goal) → pieces.now ≡ goal_pieces (g ∷ gs) → take result pieces.now ≡ goal_pieces (g ∷ []) }
    ensures others { (g : Goal) (gs : List Goal) → pieces.now ≡ goal_pieces (g ∷ gs) → drop result pieces.now ≡ goal_pieces gs }
{
    find_end(pieces)
}

fn find_end(pieces: &[Piece]) -> usize
    ensures value { result ≡ spec.goal_end pieces.now }
    ensures within { result ≤ length pieces.now }
{
    for (at, piece) in pieces.iter().enumerate() {
        if is_end(*piece) {
            return at + 1;
        }
    }
    pieces.len()
}

fn is_end(piece: Piece) -> bool
    ensures { result ≡ spec.is_end piece }
{
    match piece {
        Piece::Proof(_) => true,
        _ => false,
    }
}
