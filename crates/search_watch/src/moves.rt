//! How the search changes its trail and the heap of its unassigned variables together.

ghost use Rattle.std.specs.Prelude.{◌*◌, ◌+◌, ◌-◌, ◌<◌, ◌^◌, ◌≡◌, ◌≢◌, ◌≤◌, ℕ, All, IfNone, IfSome, false, get_or, length, true};
ghost use Rattle.search_heap.specs.Ranking.{comes_before};
ghost use Rattle.search_learn.specs.Cases.{times};
ghost use Rattle.search_learn.specs.Machine as machine;
ghost use Rattle.search_learn.specs.Trail as trails;
ghost use Rattle.search_learn.specs.Values.{IsOfMachine};
ghost use Rattle.search_watch.specs.Members.{IsCutOrSame, IsFirstFree, IsKept, KeepsFree, NoneFree};

use sat_form::Lit;
use search_heap::Heap;
use search_learn::{Trail, is_restart};

/// Takes the unassigned variable of greatest score, then of least number, out of the heap, and the assigned ones before
/// it; `None` exactly where all members are assigned.
pub fn choose(heap: &mut Heap, trail: &Trail) -> Option<u32>
    requires vars { trail.now.vars < 2 ^ 31 }
    requires scores { length heap.old.scores ≡ trail.now.vars }
    ensures scores { heap.new.scores ≡ heap.old.scores }
    ensures size { length heap.new.members ≡ length heap.old.members }
    ensures none { IfNone result (NoneFree trail.now.steps heap.old) }
    ensures some { IfSome result (λ var. IsFirstFree trail.now.steps heap.old var) }
    ensures rest { IfSome result (λ var. IsKept trail.now.steps heap.old heap.new var) }
{
    while let Some(var) = heap.take() {
        if !trail.is_assigned(Lit::new(var, true)) {
            return Some(var);
        }
    }
    None
}

/// Cuts the trail to a level, and puts the variables that become unassigned back.
pub fn cut(trail: &mut Trail, heap: &mut Heap, to: u32)
    requires trail { IsOfMachine trail.old.vars trail.old.steps }
    requires scores { length heap.old.scores ≡ trail.old.vars }
    requires members { length heap.old.members ≡ trail.old.vars }
    ensures trail { trail.new ≡ record trail.old { steps = trails.cut to trail.old.steps } }
    ensures scores { heap.new.scores ≡ heap.old.scores }
    ensures size { length heap.new.members ≡ length heap.old.members }
    ensures free { KeepsFree trail.old.vars trail.old.steps heap.old trail.new.steps heap.new }
{
    while let Some(step) = trail.pop_above(to) {
        heap.put_back(step.lit.var());
    }
}

/// Raises the score of each variable of a clause.
pub fn raise(heap: &mut Heap, lits: &[Lit], by: u64)
    requires within { All (λ l. l.var ≤ length heap.old.scores) lits.now }
    requires room { (v : ℕ) → 0 < v → get_or heap.old.scores (v - 1) 0 + by * times v lits.now < 2 ^ 128 }
    ensures scores { heap.new.scores ≡ machine.raise by heap.old.scores lits.now }
    ensures members { heap.new.members ≡ heap.old.members }
{
    for lit in lits {
        heap.raise(lit.var(), by);
    }
}

/// Restarts where it is time for it: the trail is cut to level 0.
pub fn restart(trail: &mut Trail, heap: &mut Heap, since: &mut u64, restarts: &mut u64)
    requires room { restarts.old < 2 ^ 62 }
    requires trail { IsOfMachine trail.old.vars trail.old.steps }
    requires scores { length heap.old.scores ≡ trail.old.vars }
    requires members { length heap.old.members ≡ trail.old.vars }
    ensures restart { (m : machine.State) → m.trail ≡ trail.old.steps → m.since ≡ since.old → m.restarts ≡ restarts.old
        → machine.restart m ≡ record m { trail = trail.new.steps; since = since.new; restarts = restarts.new } }
    ensures vars { trail.new.vars ≡ trail.old.vars }
    ensures since { since.new ≤ since.old }
    ensures restarts { restarts.new ≤ restarts.old + 1 }
    ensures scores { heap.new.scores ≡ heap.old.scores }
    ensures size { length heap.new.members ≡ length heap.old.members }
    ensures free { KeepsFree trail.old.vars trail.old.steps heap.old trail.new.steps heap.new }
    ensures cut { IsCutOrSame trail.old.steps trail.new.steps }
{
    if is_restart(*since, *restarts) {
        cut(trail, heap, 0);
        *restarts += 1;
        *since = 0;
    }
}
