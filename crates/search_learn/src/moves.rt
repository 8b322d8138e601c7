//! How a search changes its trail: assignments, rounds, and restarts by Luby's sequence.

ghost use Rattle.std.specs.Prelude.{◌*◌, ◌+◌, ◌++◌, ◌-◌, ◌<◌, ◌^◌, ◌∷◌, ◌≡◌, ◌≤◌, All, IfOk, OnErr, OnOk, [], false, length, nat_eq, slice_set};
ghost use Rattle.search_learn.specs.Cases.{put_entries};
ghost use Rattle.search_learn.specs.Luby as lubys;
ghost use Rattle.search_learn.specs.Machine as machine;
ghost use Rattle.search_learn.specs.Trail as trails;
ghost use Rattle.search_learn.specs.Values.{IsOfMachine};

use crate::Step;
use crate::trail::Trail;
use std::alloc::AllocError;

/// Puts an entry on the trail, and keeps its variable's sign. After a refusal both are unchanged. O(1), amortised.
#[inline(always)]
pub fn assign(trail: &mut Trail, signs: &mut [bool], step: Step) -> Result<(), AllocError>
    requires free { trails.is_assigned trail.old.steps step.lit ≡ false }
    requires within { step.lit.var ≤ trail.old.vars }
    requires signs { length signs.old ≡ trail.old.vars }
    ensures trail { OnOk result (trail.new ≡ record trail.old { steps = trail.old.steps ++ step ∷ [] }) }
    ensures signs { OnOk result (signs.new ≡ slice_set signs.old (step.lit.var - 1) step.lit.positive) }
    ensures err { OnErr result ((trail.new ≡ trail.old) × (signs.new ≡ signs.old)) }
{
    let lit = step.lit;
    trail.push(step)?;
    signs[lit.var() as usize - 1] = lit.positive();
    Ok(())
}

/// Puts each entry whose variable isn't on the trail by now, and answers how many. O(number of entries), amortised.
pub fn put_entries(
    trail: &mut Trail,
    signs: &mut [bool],
    entries: &[Step],
) -> Result<u64, AllocError>
    requires signs { length signs.old ≡ trail.old.vars }
    requires within { All (λ e. e.lit.var ≤ trail.old.vars) entries.now }
    ensures put { IfOk result (λ count. (m : machine.State) → m.trail ≡ trail.old.steps → m.signs ≡ signs.old
        → put_entries entries.now m ≡ record m { trail = trail.new.steps; signs = signs.new; spent = m.spent + count }) }
    ensures count { IfOk result (λ count. count ≤ length entries.now) }
    ensures vars { IfOk result (λ count. trail.new.vars ≡ trail.old.vars) }
    ensures signs { IfOk result (λ count. length signs.new ≡ length signs.old) }
{
    let mut count = 0;
    for entry in entries {
        if !trail.is_assigned(entry.lit) {
            assign(trail, signs, *entry)?;
            count += 1;
        }
    }
    Ok(count)
}

/// A place of Luby's sequence 1, 1, 2, 1, 1, 2, 4, 1, .., from 1. O(log place).
pub fn luby(place: u64) -> u64
    requires { place ≤ 2 ^ 62 }
    ensures { result ≡ lubys.luby place }
{
    let mut power = 1;
    while power <= place {
        power *= 2;
    }
    let mut rest = place;
    while power > 1 {
        let half = power / 2;
        if rest + 1 == power {
            return half;
        }
        if rest >= half {
            rest = rest + 1 - half;
        }
        power = half;
    }
    1
}

/// Whether a restart comes: behind so many conflicts since the last one, and after so many restarts. O(log restarts).
pub fn is_restart(since: u64, restarts: u64) -> bool
    requires { restarts < 2 ^ 62 }
    ensures { result ≡ nat_eq since (64 * lubys.luby (restarts + 1)) }
{
    since % 64 == 0 && since / 64 == luby(restarts + 1)
}

/// Restarts where it is time for it: the trail is cut to level 0. O(number of entries that go).
pub fn restart(trail: &mut Trail, since: &mut u64, restarts: &mut u64)
    requires room { restarts.old < 2 ^ 62 }
    requires trail { IsOfMachine trail.old.vars trail.old.steps }
    ensures restart { (m : machine.State) → m.trail ≡ trail.old.steps → m.since ≡ since.old → m.restarts ≡ restarts.old
        → machine.restart m ≡ record m { trail = trail.new.steps; since = since.new; restarts = restarts.new } }
    ensures vars { trail.new.vars ≡ trail.old.vars }
    ensures since { since.new ≤ since.old }
    ensures restarts { restarts.new ≤ restarts.old + 1 }
{
    if is_restart(*since, *restarts) {
        trail.cut(0);
        *restarts += 1;
        *since = 0;
    }
}
