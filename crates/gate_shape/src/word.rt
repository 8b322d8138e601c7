//! Gate words, keys and simple conjunctions: what every builder computes alike.

ghost use Rattle.std.specs.Prelude.{◌≡◌, ◌≤◌, ◌<◌, ◌+◌, ◌*◌, ℕ};
ghost use Rattle.gate_shape.specs.Literal.{Literal, literal_number};
ghost use Rattle.std.specs.Option.{option_map};
ghost use Rattle.gate_shape.specs.Word.{gate_word, key_of, simple_literal};
ghost use Rattle.gate_shape.specs.Edge.{simplified};
ghost use Rattle.gate_shape.specs.Builds.{Meaning, Known, OneEach, edge};

use crate::lit::Lit23;

/// The word of a gate at this level with these fanins.
pub fn pack(level: u32, left: Lit23, right: Lit23) -> u64
    requires low { 1 ≤ level }
    requires high { level ≤ 262143 }
    ensures { result ≡ gate_word level left right }
{
    (u64::from(level) * 0x400000 * 0x1000000)
        + u64::from(left.bits()) * 0x800000
        + u64::from(right.bits())
}

/// The level, the left fanin and the right fanin of a gate word: reads back what `pack` writes.
pub fn unpack(word: u64) -> (u32, Lit23, Lit23)
    requires { 70368744177664 ≤ word }
    ensures word { word ≡ gate_word result.0 result.1 result.2 }
    ensures level { (1 ≤ result.0) × (result.0 ≤ 262143) }
    ensures packed { (level : ℕ) (left right : Literal) → left.node < 4194304 → right.node < 4194304 → word ≡ gate_word level left right → result ≡ (level, left, right) }
{
    let left = word / 0x800000 % 0x800000;
    let right = word % 0x800000;
    (
        (word / 0x400000000000) as u32,
        Lit23::from_bits(left as u32),
        Lit23::from_bits(right as u32),
    )
}

/// The key by which the fanins of a gate are ordered.
pub fn key(lit: Lit23, level: u32) -> (u32, u32)
    ensures { result ≡ key_of lit level }
{
    (level, if level == 0 { lit.node() } else { 0 })
}

/// The conjunction of two literals where it is simple.
#[tactic(auto, unfolding(crate::specs::Word::simple_literal))]
fn simplification(a: Lit23, b: Lit23) -> Option<Lit23>
    ensures { result ≡ simple_literal a b }
{
    let no = Lit23::new(0, false);
    let yes = Lit23::new(0, true);
    if a.is(no) || b.is(no) || a.is(b.not()) {
        Some(no)
    } else if a.is(yes) {
        Some(b)
    } else if b.is(yes) || a.is(b) {
        Some(a)
    } else {
        None
    }
}

/// The conjunction of two literals where it is simple, and None exactly where it isn't: false where
/// either is false or one negates the other, the other one where one is true, `a` where they are
/// equal. Literals of one builder simplify exactly where their edges do. O(1).
pub fn simple(a: Lit23, b: Lit23) -> Option<Lit23>
    ensures literals { result ≡ simple_literal a b }
    ensures edges { (m : Meaning) → OneEach m → Known m a → Known m b → simplified (edge m a) (edge m b) ≡ option_map (edge m) result }
{
    simplification(a, b)
}
