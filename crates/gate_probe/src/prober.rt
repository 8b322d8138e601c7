//! The search for a gate's word: which place is loaded or claimed next.

ghost use Rattle.std.specs.Prelude.{◌≡◌, ◌↔◌, ◌+◌, ◌*◌, ◌<◌, ◌≤◌, ◌==◌, if◌then◌else◌};
ghost use Rattle.gate_probe.specs.Sound.{probed};
ghost use Rattle.gate_probe.specs.declared.prober.Move.TheVariants.{Load, Found, Full};
ghost use Rattle.gate_probe.specs.Moves.{Probe, started, place_of, move_after, probe_after, MayTell, IsOnward, moves_left};

use gate_shape::{Lit23, pack};
use std::marker::Model;

/// What a search does next, or how it ended.
#[derive(Clone, Copy, Drop)]
pub enum Move {
    /// Load the word at this place.
    Load(u32),
    /// Write this word at this place, if the place is still empty.
    Claim(u32, u64),
    /// The gate's node: its word was seen.
    Found(u32),
    /// Other words were seen at all places.
    Full,
}

/// The search for the word of one gate in a table of n words. It begins at the home of the gate's pair
/// and goes on place by place, round the end. It holds no word of the table.
#[derive(Drop)]
pub struct Prober {
    places: u32,
    word: u64,
    from: u32,
    passed: u32,
    last: Move,
}

impl Model for Prober {
    ghost use Rattle.std.specs.Prelude.{◌<◌, ◌≤◌};
    ghost use Rattle.gate_probe.specs.Moves.{Probe, IsMove};

    ghost Value = { Probe };

    ghost view = { λ p. record { places = p.places; word = p.word; from = p.from; passed = p.passed; last = p.last } };

    ghost invariant = { λ p. (p.places ≤ 4000000) × (p.from < p.places) × (0 < p.word) × IsMove record { places = p.places; word = p.word; from = p.from; passed = p.passed; last = p.last } p.last };
}

impl Prober {
    /// A search among n words, 1 to 4,000,000, for the gate of these fanins at this level. At most n
    /// loads and n claims follow. O(1).
    pub fn start(n: u32, left: Lit23, right: Lit23, level: u32) -> Prober
        requires places { (1 ≤ n) × (n ≤ 4000000) }
        requires level { (1 ≤ level) × (level ≤ 262143) }
        ensures search { result ≡ started n left right level }
        ensures moves { moves_left result ≡ 2 * n }
    {
        let first = 2 * left.node() + u32::from(left.sign());
        let second = 2 * right.node() + u32::from(right.sign());
        let from = ((u64::from(first) * 1_000_003 + u64::from(second)) % u64::from(n)) as u32;
        Prober {
            places: n,
            word: pack(level, left, right),
            from,
            passed: 0,
            last: Move::Load(from),
        }
    }

    /// The last move; at first the load of the pair's home.
    pub fn first(&self) -> Move
        ensures { result ≡ self.now.last }
    {
        self.last
    }

    /// The next move, where this word was seen: by the load, by the claim that was lost, or by the
    /// claim that wrote it. It is Found exactly where this is the wanted word, and Full exactly where
    /// n other words were seen. O(1).
    pub fn next(&mut self, seen: u64) -> Move
        requires { MayTell self.old.last seen }
        ensures next_move { result ≡ move_after self.old seen }
        ensures search { self.new ≡ probe_after self.old seen }
        ensures found { (result ≡ Found (8193 + place_of self.old)) ↔ (seen ≡ self.old.word) }
        ensures full { (result ≡ Full) ↔ (self.new.passed ≡ self.new.places) }
        ensures onward { IsOnward self.old self.new }
        ensures nearer { moves_left self.new < moves_left self.old }
    {
        let at = (self.from + self.passed) % self.places;
        let last = if seen == self.word {
            Move::Found(8193 + at)
        } else if seen == 0 {
            Move::Claim(at, self.word)
        } else {
            self.pass()
        };
        self.last = last;
        last
    }

    /// Another word was seen.
    fn pass(&mut self) -> Move
        requires { self.old.passed < self.old.places }
        ensures next_move { result ≡ (if self.old.passed + 1 == self.old.places then Full else Load (probed self.old.places self.old.from (self.old.passed + 1))) }
        ensures search { self.new ≡ record { places = self.old.places; word = self.old.word; from = self.old.from; passed = self.old.passed + 1; last = result } }
    {
        let passed = self.passed + 1;
        let last = if passed == self.places {
            Move::Full
        } else {
            Move::Load((self.from + passed) % self.places)
        };
        self.passed = passed;
        self.last = last;
        last
    }
}
