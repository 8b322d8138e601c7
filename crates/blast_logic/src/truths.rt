//! Truths: constants, variables and the connectives.

ghost use Rattle.std.specs.Prelude.{◌≡◌, ◌<◌, ℕ, Bool, false, not, ◌&&◌, ◌||◌, IfOk, IsOk, if◌then◌else◌};
ghost use Rattle.gate_shape.specs.Edge.{value as value_of, constant, input, invert};
ghost use Rattle.gate_shape.specs.Row.{plain, both, either, differ, choice};
ghost use Rattle.gate_shape.specs.Builds.{Known, edge, Builds, Stands};
ghost use Rattle.bv_value.specs.Bits.{differ as differ_bits};
ghost use Rattle.blast_logic.specs.Truths.{equivalence, implication};

use gate_shape::{Builder, GateStop, Lit23, input as input_bit, ite, or2, xor2};

/// A constant truth. It makes no gate and is never refused.
pub fn truth_const<B: Builder>(b: &mut B, value: bool) -> Result<Lit23, GateStop>
    ensures built { Builds B.noted Stands (B.meaning b.old) (B.meaning b.new) result (plain (constant value)) }
    ensures value { IfOk result (λ l. (bits : ℕ → ℕ → Bool) → value_of bits (edge (B.meaning b.new) l) ≡ value) }
    ensures succeeds { IsOk result }
    ensures unchanged { b.new ≡ b.old }
{
    Ok(Lit23::new(0, value))
}

/// The truth of variable k, which is its bit 0. It makes no gate and is never refused.
pub fn truth_var<B: Builder>(b: &mut B, k: u8) -> Result<Lit23, GateStop>
    requires { k < 64 }
    ensures built { Builds B.noted Stands (B.meaning b.old) (B.meaning b.new) result (plain (input false k 0)) }
    ensures value { IfOk result (λ l. (bits : ℕ → ℕ → Bool) → value_of bits (edge (B.meaning b.new) l) ≡ bits k 0) }
    ensures succeeds { IsOk result }
    ensures unchanged { b.new ≡ b.old }
{
    Ok(input_bit(k, 0))
}

/// The negation. It makes no gate and is never refused.
pub fn truth_not<B: Builder>(b: &mut B, x: Lit23) -> Result<Lit23, GateStop>
    requires { Known (B.meaning b.old) x }
    ensures built { Builds B.noted Stands (B.meaning b.old) (B.meaning b.new) result (plain (invert (edge (B.meaning b.old) x))) }
    ensures value { IfOk result (λ l. (bits : ℕ → ℕ → Bool) → value_of bits (edge (B.meaning b.new) l) ≡ not (value_of bits (edge (B.meaning b.old) x))) }
    ensures succeeds { IsOk result }
    ensures unchanged { b.new ≡ b.old }
{
    Ok(x.not())
}

/// The conjunction. One gate at most.
pub fn truth_and<B: Builder>(b: &mut B, x: Lit23, y: Lit23) -> Result<Lit23, GateStop>
    requires left { Known (B.meaning b.old) x }
    requires right { Known (B.meaning b.old) y }
    ensures built { let m = B.meaning b.old in Builds B.noted Stands m (B.meaning b.new) result (both (edge m x) (edge m y)) }
    ensures value { let m = B.meaning b.old in IfOk result (λ l. (bits : ℕ → ℕ → Bool) → value_of bits (edge (B.meaning b.new) l) ≡ value_of bits (edge m x) && value_of bits (edge m y)) }
{
    b.and(x, y)
}

/// The disjunction. One gate at most.
pub fn truth_or<B: Builder>(b: &mut B, x: Lit23, y: Lit23) -> Result<Lit23, GateStop>
    requires left { Known (B.meaning b.old) x }
    requires right { Known (B.meaning b.old) y }
    ensures built { let m = B.meaning b.old in Builds B.noted Stands m (B.meaning b.new) result (either (edge m x) (edge m y)) }
    ensures value { let m = B.meaning b.old in IfOk result (λ l. (bits : ℕ → ℕ → Bool) → value_of bits (edge (B.meaning b.new) l) ≡ value_of bits (edge m x) || value_of bits (edge m y)) }
{
    or2(b, x, y)
}

/// The exclusive disjunction. Three gates at most.
pub fn truth_xor<B: Builder>(b: &mut B, x: Lit23, y: Lit23) -> Result<Lit23, GateStop>
    requires left { Known (B.meaning b.old) x }
    requires right { Known (B.meaning b.old) y }
    ensures built { let m = B.meaning b.old in Builds B.noted Stands m (B.meaning b.new) result (differ (edge m x) (edge m y)) }
    ensures value { let m = B.meaning b.old in IfOk result (λ l. (bits : ℕ → ℕ → Bool) → value_of bits (edge (B.meaning b.new) l) ≡ differ_bits (value_of bits (edge m x)) (value_of bits (edge m y))) }
{
    xor2(b, x, y)
}

/// Whether two truths are equal: the negation of their exclusive disjunction. Three gates at most.
pub fn truth_eq<B: Builder>(b: &mut B, x: Lit23, y: Lit23) -> Result<Lit23, GateStop>
    requires left { Known (B.meaning b.old) x }
    requires right { Known (B.meaning b.old) y }
    ensures built { let m = B.meaning b.old in Builds B.noted Stands m (B.meaning b.new) result (equivalence (edge m x) (edge m y)) }
    ensures value { let m = B.meaning b.old in IfOk result (λ l. (bits : ℕ → ℕ → Bool) → value_of bits (edge (B.meaning b.new) l) ≡ not (differ_bits (value_of bits (edge m x)) (value_of bits (edge m y)))) }
{
    let d = xor2(b, x, y)?;
    Ok(d.not())
}

/// The implication: not both the first and the negation of the second. One gate at most.
pub fn implies<B: Builder>(b: &mut B, x: Lit23, y: Lit23) -> Result<Lit23, GateStop>
    requires left { Known (B.meaning b.old) x }
    requires right { Known (B.meaning b.old) y }
    ensures built { let m = B.meaning b.old in Builds B.noted Stands m (B.meaning b.new) result (implication (edge m x) (edge m y)) }
    ensures value { let m = B.meaning b.old in IfOk result (λ l. (bits : ℕ → ℕ → Bool) → value_of bits (edge (B.meaning b.new) l) ≡ not (value_of bits (edge m x)) || value_of bits (edge m y)) }
{
    let p = b.and(x, y.not())?;
    Ok(p.not())
}

/// The second truth where the first is true, else the third. Three gates at most.
pub fn truth_if<B: Builder>(b: &mut B, c: Lit23, x: Lit23, y: Lit23) -> Result<Lit23, GateStop>
    requires condition { Known (B.meaning b.old) c }
    requires left { Known (B.meaning b.old) x }
    requires right { Known (B.meaning b.old) y }
    ensures built { let m = B.meaning b.old in Builds B.noted Stands m (B.meaning b.new) result (choice (edge m c) (edge m x) (edge m y)) }
    ensures value { let m = B.meaning b.old in IfOk result (λ l. (bits : ℕ → ℕ → Bool) → value_of bits (edge (B.meaning b.new) l) ≡ (if value_of bits (edge m c) then value_of bits (edge m x) else value_of bits (edge m y))) }
{
    ite(b, c, x, y)
}
