//! The circuit of a term: the circuits of its parts, from left to right, and then the row of its node.

ghost use Rattle.std.specs.Prelude.{◌≡◌, ◌≤◌, ℕ, Bool, List, All, IfOk, length, map, slice_index_or};
ghost use Rattle.gate_shape.specs.Edge.{value as value_of};
ghost use Rattle.gate_shape.specs.Builds.{AllKnown, edges, Builds, Stands, StandAll};
ghost use Rattle.blast_goal.specs.Circuit.{unary_row, binary_row, single as single_row, sum as sum_row, truth_of, circuit as circuit_row, truth_row};
ghost use Rattle.gate_shape.specs.Literal.{Literal};
ghost use Rattle.gate_shape.specs.Row.{choice};
ghost use Rattle.blast_logic.specs.Chosen.{chosen};
ghost use Rattle.bv_expr.specs.declared.ops.Val.{Val};
ghost use Rattle.bv_expr.specs.Sorts.{IsExpr};
ghost use Rattle.bv_expr.specs.Meaning.{meaning, HasValues};
ghost use Rattle.bv_expr.specs.Goal.{IsValue};
ghost use Rattle.blast_goal.specs.Values.{input_bits, all_bits};
ghost use Rattle.blast_goal.specs.Fitting.{Suits, Wrapped};

use blast_arith::{add, eq, neg, sle, slt, sub, ule, ult};
use blast_div::{sdiv, smod, srem, udiv, umod};
use blast_logic::{
    and, choose, constant, implies, not, or, truth_and, truth_const, truth_eq, truth_if, truth_not,
    truth_or, truth_var, truth_xor, variable, xor,
};
use blast_mul::mul;
use blast_shift::{
    append, ashr, ashr_by, bit, extract, lshr, lshr_by, msb, rotl, rotr, set_width, shl, shl_by,
    sign_extend,
};
use bv_expr::{Binary, Expr, Shape, Unary, shape_of};
use gate_shape::{Builder, GateStop, Lit23};
use std::alloc::Global;

/// The literal of a truth as a list of one.
fn single(alloc: Global, answer: Result<Lit23, GateStop>) -> Result<Vec<Lit23>, GateStop>
    ensures { Wrapped (λ v. v.items) answer result }
{
    let lit = answer?;
    let mut out = Vec::new(alloc);
    gate_shape::append(&mut out, lit)?;
    Ok(out)
}

/// The literal of a truth's list.
fn first(bits: &[Lit23]) -> Lit23
    requires { 1 ≤ length bits.now }
    ensures { (l : Literal) → result ≡ slice_index_or bits.now 0 l }
{
    bits[0]
}

/// The sums of two vectors, without the last carry.
fn sum<B: Builder>(
    alloc: Global,
    b: &mut B,
    x: &[Lit23],
    y: &[Lit23],
) -> Result<Vec<Lit23>, GateStop>
    requires lengths { length x.now ≡ length y.now }
    requires left { AllKnown (B.meaning b.old) x.now }
    requires right { AllKnown (B.meaning b.old) y.now }
    ensures { let m = B.meaning b.old in Builds B.noted (λ m v. StandAll m v.items) m (B.meaning b.new) result (sum_row (edges m x.now) (edges m y.now)) }
{
    let (sums, _carry) = add(alloc, b, x, y, Lit23::new(0, false))?;
    Ok(sums)
}

/// The row of an operator on one part.
fn of_one<B: Builder>(
    alloc: Global,
    b: &mut B,
    op: Unary,
    x: &[Lit23],
) -> Result<Vec<Lit23>, GateStop>
    requires positive { 1 ≤ length x.now }
    requires known { AllKnown (B.meaning b.old) x.now }
    ensures { let m = B.meaning b.old in Builds B.noted (λ m v. StandAll m v.items) m (B.meaning b.new) result (unary_row op (edges m x.now)) }
{
    match op {
        Unary::Not => not(alloc, b, x),
        Unary::Neg => neg(alloc, b, x),
        Unary::Msb => single(alloc, msb(b, x)),
        Unary::TNot => single(alloc, truth_not(b, x[0])),
        Unary::ShlBy(n) => shl_by(alloc, b, x, n),
        Unary::LshrBy(n) => lshr_by(alloc, b, x, n),
        Unary::AshrBy(n) => ashr_by(alloc, b, x, n),
        Unary::RotL(n) => rotl(alloc, b, x, n),
        Unary::RotR(n) => rotr(alloc, b, x, n),
        Unary::Bit(i) => single(alloc, bit(b, x, i)),
        Unary::Extract(start, len) => extract(alloc, b, x, start, len),
        Unary::SetWidth(width) => set_width(alloc, b, x, width),
        Unary::SignExtend(width) => sign_extend(alloc, b, x, width),
    }
}

/// The row of an operator on two parts.
fn of_two<B: Builder>(
    alloc: Global,
    b: &mut B,
    op: Binary,
    x: &[Lit23],
    y: &[Lit23],
) -> Result<Vec<Lit23>, GateStop>
    requires left_positive { 1 ≤ length x.now }
    requires right_positive { 1 ≤ length y.now }
    requires suits { Suits op (length x.now) (length y.now) }
    requires left { AllKnown (B.meaning b.old) x.now }
    requires right { AllKnown (B.meaning b.old) y.now }
    ensures { let m = B.meaning b.old in Builds B.noted (λ m v. StandAll m v.items) m (B.meaning b.new) result (binary_row op (edges m x.now) (edges m y.now)) }
{
    let (p, q) = (x[0], y[0]);
    match op {
        Binary::And => and(alloc, b, x, y),
        Binary::Or => or(alloc, b, x, y),
        Binary::Xor => xor(alloc, b, x, y),
        Binary::Add => sum(alloc, b, x, y),
        Binary::Sub => sub(alloc, b, x, y),
        Binary::Mul => mul(alloc, b, x, y),
        Binary::Udiv => udiv(alloc, b, x, y),
        Binary::Umod => umod(alloc, b, x, y),
        Binary::Sdiv => sdiv(alloc, b, x, y),
        Binary::Srem => srem(alloc, b, x, y),
        Binary::Smod => smod(alloc, b, x, y),
        Binary::Append => append(alloc, b, x, y),
        Binary::Shl => shl(alloc, b, x, y),
        Binary::Lshr => lshr(alloc, b, x, y),
        Binary::Ashr => ashr(alloc, b, x, y),
        Binary::Eq => single(alloc, eq(b, x, y)),
        Binary::Ult => single(alloc, ult(alloc, b, x, y)),
        Binary::Ule => single(alloc, ule(alloc, b, x, y)),
        Binary::Slt => single(alloc, slt(alloc, b, x, y)),
        Binary::Sle => single(alloc, sle(alloc, b, x, y)),
        Binary::TAnd => single(alloc, truth_and(b, p, q)),
        Binary::TOr => single(alloc, truth_or(b, p, q)),
        Binary::TXor => single(alloc, truth_xor(b, p, q)),
        Binary::Implies => single(alloc, implies(b, p, q)),
        Binary::TEq => single(alloc, truth_eq(b, p, q)),
    }
}

/// The row of a choice between two vectors.
fn vector_choice<B: Builder>(
    alloc: Global,
    b: &mut B,
    c: &[Lit23],
    x: &[Lit23],
    y: &[Lit23],
) -> Result<Vec<Lit23>, GateStop>
    requires positive { 1 ≤ length c.now }
    requires lengths { length x.now ≡ length y.now }
    requires condition { AllKnown (B.meaning b.old) c.now }
    requires left { AllKnown (B.meaning b.old) x.now }
    requires right { AllKnown (B.meaning b.old) y.now }
    ensures { let m = B.meaning b.old in Builds B.noted (λ m v. StandAll m v.items) m (B.meaning b.new) result (chosen (truth_of (edges m c.now)) (edges m x.now) (edges m y.now)) }
{
    choose(alloc, b, c[0], x, y)
}

/// The row of a choice between two truths.
fn truth_choice<B: Builder>(
    alloc: Global,
    b: &mut B,
    c: &[Lit23],
    x: &[Lit23],
    y: &[Lit23],
) -> Result<Vec<Lit23>, GateStop>
    requires positive { 1 ≤ length c.now }
    requires left_positive { 1 ≤ length x.now }
    requires right_positive { 1 ≤ length y.now }
    requires condition { AllKnown (B.meaning b.old) c.now }
    requires left { AllKnown (B.meaning b.old) x.now }
    requires right { AllKnown (B.meaning b.old) y.now }
    ensures { let m = B.meaning b.old in Builds B.noted (λ m v. StandAll m v.items) m (B.meaning b.new) result (single_row (choice (truth_of (edges m c.now)) (truth_of (edges m x.now)) (truth_of (edges m y.now)))) }
{
    single(alloc, truth_if(b, c[0], x[0], y[0]))
}

/// The circuit of a term, a truth's as a list of one literal. Takes time by the number of its nodes and of its gates,
/// and stack by its depth, which is 1,000 at most.
fn circuit<B: Builder>(alloc: Global, b: &mut B, term: &Expr) -> Result<Vec<Lit23>, GateStop>
    ensures built { Builds B.noted (λ m v. StandAll m v.items) (B.meaning b.old) (B.meaning b.new) result (circuit_row term.now) }
    // The values of the edges are the bits of what the term means.
    ensures value { IfOk result (λ v. (values : List Val) → All IsValue values → HasValues values term.now → map (value_of (input_bits values)) (edges (B.meaning b.new) v.items) ≡ all_bits (meaning term.now values)) }
    ensures expr { IsExpr term.now }
{
    match shape_of(term.node()) {
        Shape::Constant(value) => constant(alloc, b, &value),
        Shape::Variable(number, width) => variable(alloc, b, number, width),
        Shape::Truth(value) => single(alloc, truth_const(b, value)),
        Shape::TruthVariable(number) => single(alloc, truth_var(b, number)),
        Shape::Unary(op, x) => {
            let part = circuit(alloc, b, x)?;
            of_one(alloc, b, op, &part)
        }
        Shape::Binary(op, x, y) => {
            let left = circuit(alloc, b, x)?;
            let right = circuit(alloc, b, y)?;
            of_two(alloc, b, op, &left, &right)
        }
        Shape::Choice(c, x, y) => {
            let test = circuit(alloc, b, c)?;
            let left = circuit(alloc, b, x)?;
            let right = circuit(alloc, b, y)?;
            vector_choice(alloc, b, &test, &left, &right)
        }
        Shape::TruthChoice(c, x, y) => {
            let test = circuit(alloc, b, c)?;
            let left = circuit(alloc, b, x)?;
            let right = circuit(alloc, b, y)?;
            truth_choice(alloc, b, &test, &left, &right)
        }
    }
}

/// The literal of a truth. Takes what `circuit` takes.
pub(crate) fn truth<B: Builder>(alloc: Global, b: &mut B, term: &Expr) -> Result<Lit23, GateStop>
    ensures built { Builds B.noted Stands (B.meaning b.old) (B.meaning b.new) result (truth_row term.now) }
    ensures expr { IsExpr term.now }
{
    let bits = circuit(alloc, b, term)?;
    Ok(first(&bits))
}
