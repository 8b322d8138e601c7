//! Literals in four bytes: a variable and a sign to those who use them.

ghost use Rattle.std.specs.Prelude.{◌<◌, ◌^◌, ◌≡◌};
ghost use Rattle.sat_form.specs.Literals.{negate};

use std::marker::Model;

/// A literal: a variable, 1 to 2^31 - 1, or its negation.
///
/// It is kept as twice its variable, and one more where it is negated, since a search spends its time on reading
/// literals from memory.
#[derive(Clone, Copy, Debug, PartialEq, Eq)]
pub struct Lit {
    code: u32,
}

impl Model for Lit {
    ghost use Rattle.std.specs.Prelude.{◌≤◌};
    ghost use Rattle.std.proofs.Common.{ap};
    ghost use Rattle.sat_form.specs.Literals.{Literal};
    ghost use Rattle.sat_form.specs.Codes.{code_of, literal_of, code_of-literal_of};

    ghost Value = { Literal };

    ghost view = { λ l. literal_of l.code };

    ghost invariant = { λ l. 2 ≤ l.code };

    ghost inverse = { λ l. record { code = code_of l } };

    ghost inverse_ok = { λ l _. ap (λ code. record { code = code }) (code_of-literal_of l.code) };
}

impl Lit {
    /// The literal of a variable: the variable itself where `positive`, else its negation. O(1).
    pub fn new(var: u32, positive: bool) -> Lit
        requires { (0 < var) × (var < 2 ^ 31) }
        ensures { result ≡ record { var = var; positive = positive } }
    {
        Lit {
            code: var * 2 + if positive { 0 } else { 1 },
        }
    }

    /// Its variable, 1 to 2^31 - 1. O(1).
    pub fn var(self) -> u32
        ensures value { result ≡ self.var }
        ensures range { (0 < result) × (result < 2 ^ 31) }
    {
        self.code / 2
    }

    /// Whether it is its variable, not negated. O(1).
    pub fn positive(self) -> bool
        ensures { result ≡ self.positive }
    {
        self.code % 2 == 0
    }

    /// Its negation. O(1).
    pub fn not(self) -> Lit
        ensures { result ≡ negate self }
    {
        Lit {
            code: self.code ^ 1,
        }
    }
}
