//! Blocks of full adders, by any builder.

ghost use Rattle.std.specs.Prelude.{◌≤◌};

use gate_shape::{Builder, GateStop, full_adder, input};

/// A chain of 64 full adders that no block of another number has. Two blocks below 8,192 differ in the
/// inputs that they begin with.
fn build_block<B: Builder>(b: &mut B, number: u32) -> Result<(), GateStop> {
    let first = (number % 64) as u8;
    let bit = (number / 64 % 128) as u8;
    let mut sum = input(first, bit);
    let mut carry = input((first + 1) % 64, bit);
    for place in 0..64u8 {
        let added = full_adder(b, input(place, 127 - bit), sum, carry)?;
        sum = added.0;
        carry = added.1;
    }
    Ok(())
}

/// Builds each `step`-th block below `count`, beginning with number `from`, and answers how many were
/// built before the builder refused.
pub(crate) fn build_blocks<B: Builder>(b: &mut B, from: u32, step: u32, count: u32) -> u32
    requires { 1 ≤ step }
{
    let mut built = 0u32;
    for number in from..count {
        if (number - from) % step == 0 {
            if build_block(b, number).is_err() {
                return built;
            }
            built = built.saturating_add(1);
        }
    }
    built
}
