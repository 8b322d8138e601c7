//! Shifts by bit vectors: a stage for each bit of the amount.

ghost use Rattle.std.specs.Prelude.{◌≡◌, ◌<◌, ◌≤◌, ◌^◌, ℕ, Bool, true, IfOk, length, nat_lt};
ghost use Rattle.gate_shape.specs.Row.{plain};
ghost use Rattle.blast_logic.specs.Words.{written_number};
ghost use Rattle.gate_shape.specs.Builds.{Known, AllKnown, edge, edges, Builds, Stands, StandAll};
ghost use Rattle.bv_value.specs.Operations as is;
ghost use Rattle.blast_logic.specs.Words.{word};
ghost use Rattle.blast_shift.specs.Wires.{shifted_left, shifted_right};
ghost use Rattle.blast_shift.specs.Stages.{stage as stage_row, stages as stage_rows, or_overflow as overflow_step, overflow as overflow_row, variable_shift as variable_shift_row, variable_shift_signed};
ghost use Rattle.blast_shift.specs.Ways.{moved_by as row_moved_by};

use crate::shifts::{ashr_by, lshr_by, shl_by};
use blast_logic::{choose, copied, copies, masked};
use gate_shape::{Builder, GateStop, Lit23, or2};
use std::alloc::Global;

// Where bits move, and what comes in behind them.
#[derive(Clone, Copy)]
enum Way {
    Up,
    Down,
    DownSigned,
}

// Whether a bit of an amount weighs less than a width.
fn is_below(k: usize, width: usize) -> bool
    ensures value { result ≡ nat_lt (2 ^ k) width }
    ensures small { result ≡ true → k < 64 }
{
    k < 64 && 1_usize << k < width
}

// The weight of a bit of an amount.
fn weight(k: usize) -> u128
    requires { k < 64 }
    ensures { result ≡ 2 ^ k }
{
    1 << k
}

// The bits moved by n.
fn moved_by<B: Builder>(
    alloc: Global,
    b: &mut B,
    way: Way,
    x: &[Lit23],
    n: u128,
) -> Result<Vec<Lit23>, GateStop>
    requires positive { 1 ≤ length x.now }
    requires known { AllKnown (B.meaning b.old) x.now }
    ensures built { let m = B.meaning b.old in Builds B.noted (λ m r. StandAll m r.items) m (B.meaning b.new) result (plain (row_moved_by way n (edges m x.now))) }
{
    match way {
        Way::Up => shl_by(alloc, b, x, n),
        Way::Down => lshr_by(alloc, b, x, n),
        Way::DownSigned => ashr_by(alloc, b, x, n),
    }
}

// The bits moved by 2^k where the literal is true, if that is less than the width.
fn stage<B: Builder>(
    alloc: Global,
    b: &mut B,
    way: Way,
    x: Vec<Lit23>,
    k: usize,
    y: Lit23,
) -> Result<Vec<Lit23>, GateStop>
    requires left { AllKnown (B.meaning b.old) x.items }
    requires right { Known (B.meaning b.old) y }
    ensures { let m = B.meaning b.old in Builds B.noted (λ m r. StandAll m r.items) m (B.meaning b.new) result (stage_row (row_moved_by way) (edges m x.items) (k, edge m y)) }
{
    if is_below(k, x.len()) {
        let moved = moved_by(alloc, b, way, &x, weight(k))?;
        choose(alloc, b, y, &moved, &x)
    } else {
        Ok(x)
    }
}

// A stage for each bit of the amount.
fn stages<B: Builder>(
    alloc: Global,
    b: &mut B,
    way: Way,
    x: &[Lit23],
    y: &[Lit23],
) -> Result<Vec<Lit23>, GateStop>
    requires left { AllKnown (B.meaning b.old) x.now }
    requires right { AllKnown (B.meaning b.old) y.now }
    ensures { let m = B.meaning b.old in Builds B.noted (λ m r. StandAll m r.items) m (B.meaning b.new) result (stage_rows (row_moved_by way) (edges m x.now) (edges m y.now)) }
{
    let mut moved = copied(alloc, x)?;
    for k in 0..y.len() {
        moved = stage(alloc, b, way, moved, k, y[k])?;
    }
    Ok(moved)
}

// One more bit of the amount, where it weighs at least the width.
fn or_overflow<B: Builder>(
    b: &mut B,
    width: usize,
    over: Lit23,
    k: usize,
    y: Lit23,
) -> Result<Lit23, GateStop>
    requires left { Known (B.meaning b.old) over }
    requires right { Known (B.meaning b.old) y }
    ensures { let m = B.meaning b.old in Builds B.noted Stands m (B.meaning b.new) result (overflow_step width (edge m over) (k, edge m y)) }
{
    if is_below(k, width) {
        Ok(over)
    } else {
        or2(b, over, y)
    }
}

// Whether a bit of the amount is true that weighs at least the width.
fn overflow<B: Builder>(b: &mut B, width: usize, y: &[Lit23]) -> Result<Lit23, GateStop>
    requires { AllKnown (B.meaning b.old) y.now }
    ensures { let m = B.meaning b.old in Builds B.noted Stands m (B.meaning b.new) result (overflow_row width (edges m y.now)) }
{
    let mut over = Lit23::new(0, false);
    for k in 0..y.len() {
        over = or_overflow(b, width, over, k, y[k])?;
    }
    Ok(over)
}

// The bits moved by an amount, false where it is too great.
fn variable_shift<B: Builder>(
    alloc: Global,
    b: &mut B,
    way: Way,
    x: &[Lit23],
    y: &[Lit23],
) -> Result<Vec<Lit23>, GateStop>
    requires left { AllKnown (B.meaning b.old) x.now }
    requires right { AllKnown (B.meaning b.old) y.now }
    ensures { let m = B.meaning b.old in Builds B.noted (λ m r. StandAll m r.items) m (B.meaning b.new) result (variable_shift_row (row_moved_by way) (edges m x.now) (edges m y.now)) }
{
    let moved = stages(alloc, b, way, x, y)?;
    let over = overflow(b, x.len(), y)?;
    masked(alloc, b, over.not(), &moved)
}

/// The bits moved up by the number that `y` writes, false below them; `y` has any width. Lean 4 `x <<< y`. Three gates
/// at most for each bit of `x` and each bit of `y` whose weight is below the width of `x`, one at most for each other
/// bit of `y`, and one for each bit of `x`. `Deep` and `Full` are those of a gate of the row.
pub fn shl<B: Builder>(
    alloc: Global,
    b: &mut B,
    x: &[Lit23],
    y: &[Lit23],
) -> Result<Vec<Lit23>, GateStop>
    requires left { AllKnown (B.meaning b.old) x.now }
    requires right { AllKnown (B.meaning b.old) y.now }
    ensures built { let m = B.meaning b.old in Builds B.noted (λ m r. StandAll m r.items) m (B.meaning b.new) result (variable_shift_row shifted_left (edges m x.now) (edges m y.now)) }
    ensures value { IfOk result (λ v. (bits : ℕ → ℕ → Bool) → word bits (edges (B.meaning b.new) v.items) ≡ is.shl_by (word bits (edges (B.meaning b.old) x.now)) (written_number bits (edges (B.meaning b.old) y.now))) }
{
    variable_shift(alloc, b, Way::Up, x, y)
}

/// The bits moved down by the number that `y` writes, false above them; `y` has any width. Lean 4 `x >>> y`. As many
/// gates as `shl`. `Deep` and `Full` are those of a gate of the row.
pub fn lshr<B: Builder>(
    alloc: Global,
    b: &mut B,
    x: &[Lit23],
    y: &[Lit23],
) -> Result<Vec<Lit23>, GateStop>
    requires left { AllKnown (B.meaning b.old) x.now }
    requires right { AllKnown (B.meaning b.old) y.now }
    ensures built { let m = B.meaning b.old in Builds B.noted (λ m r. StandAll m r.items) m (B.meaning b.new) result (variable_shift_row shifted_right (edges m x.now) (edges m y.now)) }
    ensures value { IfOk result (λ v. (bits : ℕ → ℕ → Bool) → word bits (edges (B.meaning b.new) v.items) ≡ is.lshr_by (word bits (edges (B.meaning b.old) x.now)) (written_number bits (edges (B.meaning b.old) y.now))) }
{
    variable_shift(alloc, b, Way::Down, x, y)
}

/// The bits moved down by the number that `y` writes, copies of the top bit above them; `y` has any width. Lean 4
/// `x.sshiftRight' y`. As many gates as `shl`, and two more at most for each bit of `x`. `Deep` and `Full` are those of
/// a gate of the row.
pub fn ashr<B: Builder>(
    alloc: Global,
    b: &mut B,
    x: &[Lit23],
    y: &[Lit23],
) -> Result<Vec<Lit23>, GateStop>
    requires positive { 1 ≤ length x.now }
    requires left { AllKnown (B.meaning b.old) x.now }
    requires right { AllKnown (B.meaning b.old) y.now }
    ensures built { let m = B.meaning b.old in Builds B.noted (λ m r. StandAll m r.items) m (B.meaning b.new) result (variable_shift_signed (edges m x.now) (edges m y.now)) }
    ensures value { IfOk result (λ v. (bits : ℕ → ℕ → Bool) → word bits (edges (B.meaning b.new) v.items) ≡ is.ashr_by (word bits (edges (B.meaning b.old) x.now)) (written_number bits (edges (B.meaning b.old) y.now))) }
{
    let moved = stages(alloc, b, Way::DownSigned, x, y)?;
    let over = overflow(b, x.len(), y)?;
    let tops = copies(alloc, x[x.len() - 1], x.len())?;
    choose(alloc, b, over, &tops, &moved)
}
