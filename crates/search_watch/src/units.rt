//! The unit clauses of a round: in rising order, put on the trail, and those of them that a round makes false.

ghost use Rattle.std.specs.Prelude.{◌+◌, ◌≡◌, ◌≤◌, ◌<◌, ◌^◌, All, Contains, IfOk, length};
ghost use Rattle.search_learn.specs.Cases.{put_entries};
ghost use Rattle.search_learn.specs.Machine as machine;
ghost use Rattle.search_watch.specs.RoundUnits.{AreRising, IsBroken, IsLeastBroken, entries};

use crate::watch::UnitClause;
use search_learn::{Step, Trail, assign};
use std::alloc::AllocError;

/// Orders unit clauses by their places.
pub fn sort(units: &mut Vec<UnitClause>)
    ensures rising { AreRising units.new.items }
    ensures from { (unit : UnitClause) → Contains units.new.items unit → Contains units.old.items unit }
    ensures all { (unit : UnitClause) → Contains units.old.items unit → Contains units.new.items unit }
{
    units.sort_unstable_by_key(|unit| unit.clause);
}

/// Puts the literal of each unit clause on the trail, unless its variable is there by now, and answers how many.
pub fn put(
    units: &[UnitClause],
    trail: &mut Trail,
    signs: &mut [bool],
    level: u32,
) -> Result<u64, AllocError>
    requires room { All (λ u. u.clause < 2 ^ 63) units.now }
    requires signs { length signs.old ≡ trail.old.vars }
    requires within { All (λ u. u.lit.var ≤ trail.old.vars) units.now }
    ensures put { IfOk result (λ count. (m : machine.State) → m.trail ≡ trail.old.steps → m.signs ≡ signs.old
        → put_entries (entries level units.now) m ≡ record m { trail = trail.new.steps; signs = signs.new; spent = m.spent + count }) }
    ensures count { IfOk result (λ count. count ≤ length units.now) }
    ensures vars { IfOk result (λ count. trail.new.vars ≡ trail.old.vars) }
    ensures signs { IfOk result (λ count. length signs.new ≡ length signs.old) }
{
    let mut count = 0;
    for unit in units {
        if !trail.is_assigned(unit.lit) {
            let step = Step {
                lit: unit.lit,
                level,
                reason: unit.clause as u64 + 1,
            };
            assign(trail, signs, step)?;
            count += 1;
        }
    }
    Ok(count)
}

/// The first of the unit clauses whose literal is false by now.
pub fn least_broken(units: &[UnitClause], trail: &Trail) -> Option<usize>
    requires { AreRising units.now }
    ensures { IsLeastBroken trail.now.steps units.now result }
{
    for unit in units {
        if trail.is_false(unit.lit) {
            return Some(unit.clause);
        }
    }
    None
}
