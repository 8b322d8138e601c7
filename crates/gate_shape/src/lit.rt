//! Literals of a circuit: a node number and a sign in 23 bits, so that two of them and a level fit
//! one 64-bit gate word.

ghost use Rattle.std.specs.Prelude.{◌≡◌, ℕ, ◌+◌, ◌*◌, ◌<◌, ◌≤◌, false};
ghost use Rattle.gate_shape.specs.Literal.{opposite, literal_number, number_literal};
ghost use Rattle.gate_shape.specs.Word.{same_literal};
ghost use Rattle.gate_shape.specs.Edge.{input};
ghost use Rattle.gate_shape.specs.Builds.{Meaning, Stands};

use std::marker::Model;

/// A literal of a gate table: a node number below 2^22 and a sign, in 23 bits.
#[derive(Clone, PartialEq, Eq, PartialOrd, Ord, Debug, Drop)]
pub struct Lit23 {
    bits: u32,
}

impl Copy for Lit23 {}

impl Model for Lit23 {
    ghost use Rattle.std.specs.Prelude.{ℕ, ◌<◌};
    ghost use Rattle.gate_shape.specs.Literal.{Literal, literal_number, number_literal};

    ghost Value = { Literal };

    ghost view = { λ a. number_literal a.bits };

    ghost invariant = { λ a. a.bits < 8388608 };

    ghost inverse = { λ l. record { bits = literal_number l } };
}

impl Lit23 {
    /// The literal of a node, negated where `sign` is true.
    pub fn new(node: u32, sign: bool) -> Lit23
        requires { node < 4194304 }
        ensures { result ≡ record { node = node; sign = sign } }
    {
        Lit23 {
            bits: 2 * node + u32::from(sign),
        }
    }

    /// The node.
    pub fn node(self) -> u32
        ensures value { result ≡ self.node }
        ensures small { result < 4194304 }
    {
        self.bits / 2
    }

    /// Whether the literal negates its node.
    pub fn sign(self) -> bool
        ensures { result ≡ self.sign }
    {
        self.bits % 2 == 1
    }

    /// The literal with the other sign.
    pub fn not(self) -> Lit23
        ensures { result ≡ opposite self }
    {
        Lit23::new(self.node(), !self.sign())
    }

    /// The number 2 * node + sign.
    pub(crate) fn bits(self) -> u32
        ensures value { result ≡ literal_number self }
        ensures small { result < 8388608 }
    {
        self.bits
    }

    /// The literal of a number below 2^23.
    pub(crate) fn from_bits(bits: u32) -> Lit23
        requires { bits < 8388608 }
        ensures { result ≡ number_literal bits }
    {
        Lit23 { bits }
    }

    /// Whether the two are the same literal.
    pub(crate) fn is(self, other: Lit23) -> bool
        ensures { result ≡ same_literal self other }
    {
        self.node() == other.node() && self.sign() == other.sign()
    }
}

/// The literal of bit j of variable k, which every builder knows.
pub fn input(k: u8, j: u8) -> Lit23
    requires variable { k < 64 }
    requires bit { j < 128 }
    ensures value { result ≡ record { node = 1 + 128 * k + j; sign = false } }
    ensures stands { (m : Meaning) → Stands m result (input false k j) }
{
    Lit23::new(1 + 128 * u32::from(k) + u32::from(j), false)
}
