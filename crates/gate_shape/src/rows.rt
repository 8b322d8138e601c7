//! The four rows over `and` that every circuit is made of. Each is generic over the builder, so that
//! one proof serves the plain list, a table shared by threads and a recorder of calls.

ghost use Rattle.gate_shape.specs.Edge.{Edge};
ghost use Rattle.gate_shape.specs.Row.{either, differ, choice, full_adder as sum_and_carry};
ghost use Rattle.gate_shape.specs.Builds.{Meaning, Known, edge, Stands, StandTwo, Builds};

use crate::builder::{Builder, GateStop};
use crate::lit::Lit23;

/// The disjunction of two known literals.
pub fn or2<B: Builder>(b: &mut B, x: Lit23, y: Lit23) -> Result<Lit23, GateStop>
    requires left { Known (B.meaning b.old) x }
    requires right { Known (B.meaning b.old) y }
    ensures { let m = B.meaning b.old in Builds B.noted Stands m (B.meaning b.new) result (either (edge m x) (edge m y)) }
{
    let p = b.and(x.not(), y.not())?;
    Ok(p.not())
}

/// The exclusive disjunction of two known literals.
pub fn xor2<B: Builder>(b: &mut B, x: Lit23, y: Lit23) -> Result<Lit23, GateStop>
    requires left { Known (B.meaning b.old) x }
    requires right { Known (B.meaning b.old) y }
    ensures { let m = B.meaning b.old in Builds B.noted Stands m (B.meaning b.new) result (differ (edge m x) (edge m y)) }
{
    let p = b.and(x, y)?;
    let q = b.and(x.not(), y.not())?;
    b.and(p.not(), q.not())
}

/// The second literal where the first is true, else the third.
pub fn ite<B: Builder>(b: &mut B, c: Lit23, x: Lit23, y: Lit23) -> Result<Lit23, GateStop>
    requires condition { Known (B.meaning b.old) c }
    requires left { Known (B.meaning b.old) x }
    requires right { Known (B.meaning b.old) y }
    ensures { let m = B.meaning b.old in Builds B.noted Stands m (B.meaning b.new) result (choice (edge m c) (edge m x) (edge m y)) }
{
    let p = b.and(c, x)?;
    let q = b.and(c.not(), y)?;
    let r = b.and(p.not(), q.not())?;
    Ok(r.not())
}

/// The sum of three known literals and its carry.
pub fn full_adder<B: Builder>(
    b: &mut B,
    x: Lit23,
    y: Lit23,
    c: Lit23,
) -> Result<(Lit23, Lit23), GateStop>
    requires left { Known (B.meaning b.old) x }
    requires right { Known (B.meaning b.old) y }
    requires carry { Known (B.meaning b.old) c }
    ensures { let m = B.meaning b.old in Builds B.noted StandTwo m (B.meaning b.new) result (sum_and_carry (edge m x) (edge m y) (edge m c)) }
{
    let t = xor2(b, x, y)?;
    let sum = xor2(b, t, c)?;
    let p = b.and(x, y)?;
    let q = b.and(t, c)?;
    let carry = or2(b, p, q)?;
    Ok((sum, carry))
}
