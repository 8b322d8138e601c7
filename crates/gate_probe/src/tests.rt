//! Searches that are driven by hand over a list of words.

ghost use Rattle.std.specs.Prelude.{◌≡◌};

use crate::prober::{Move, Prober};
use gate_shape::{Lit23, input, pack};
use std::alloc::{AllocError, Global};
use std::test::Fail;

/// 300 words of other gates, but for one place that is left empty.
fn others(alloc: Global, empty: u32) -> Result<Vec<u64>, AllocError> {
    let mut words = Vec::new(alloc);
    for place in 0..300u32 {
        let other = Lit23::new(129 + place, true);
        words.push(if place == empty {
            0
        } else {
            pack(1, input(0, 0), other)
        })?;
    }
    Ok(words)
}

/// Where the search ends, and behind how many loads and claims.
fn ended(words: &mut [u64], prober: &mut Prober) -> (Move, u32) {
    let mut next = prober.first();
    for moves in 0..1000u32 {
        next = match next {
            Move::Load(at) if (at as usize) < words.len() => prober.next(words[at as usize]),
            Move::Claim(at, word) if (at as usize) < words.len() && word > 0 => {
                words[at as usize] = word;
                prober.next(word)
            }
            end => return (end, moves),
        };
    }
    (next, 1000)
}

/// The home of the pair is place 210. The only empty place is the one before it, so that all others are
/// passed; the second search finds the word there by its last load.
#[test]
fn all_places_passed(rt: HostRuntime) -> Result<(), Fail> {
    let mut words = others(rt.alloc(), 209)?;
    let (a, b) = (input(0, 0), input(0, 1));
    let mut first = Prober::start(300, a, b, 1);
    let (end, moves) = ended(&mut words, &mut first);
    assert!(rt; matches!(end, Move::Found(8402)));
    assert_eq!(rt; moves, 301);
    assert_eq!(rt; words.get(209).copied(), Some(pack(1, a, b)));
    let mut second = Prober::start(300, a, b, 1);
    let (end, moves) = ended(&mut words, &mut second);
    assert!(rt; matches!(end, Move::Found(8402)));
    assert_eq!(rt; moves, 300);
    Ok(())
}

/// Where no place is empty and none has the word, the search is full behind one load a place.
#[test]
fn no_place_left(rt: HostRuntime) -> Result<(), Fail> {
    let mut words = others(rt.alloc(), 300)?;
    let mut prober = Prober::start(300, input(0, 0), input(0, 1), 1);
    let (end, moves) = ended(&mut words, &mut prober);
    assert!(rt; matches!(end, Move::Full));
    assert_eq!(rt; moves, 300);
    Ok(())
}
