//! The literals at which a clause is watched on a trail.

ghost use Rattle.std.specs.Prelude.{◌<◌, ◌≡◌, ◌≢◌, ◌≤◌, All, [], length, true};
ghost use Rattle.search_watch.specs.Chosen as chosen;
ghost use Rattle.search_watch.specs.Chosen.{IsFree, IsHighest};

use crate::watch::same_literal;
use sat_form::Lit;
use search_learn::Trail;

/// A literal of a clause that isn't false; the first one where all are.
pub fn free_literal(trail: &Trail, lits: &[Lit]) -> Lit
    requires { lits.now ≢ [] }
    ensures { IsFree trail.now.steps lits.now result }
{
    for lit in lits {
        if !trail.is_false(*lit) {
            return *lit;
        }
    }
    lits[0]
}

/// Whether a literal is to be watched rather than another one: that one is false, and this one isn't or became so at a
/// higher level.
fn is_higher(trail: &Trail, k: Lit, l: Lit) -> bool
    requires k { k.var ≤ trail.now.vars }
    requires l { l.var ≤ trail.now.vars }
    ensures { result ≡ chosen.is_higher trail.now.steps k l }
{
    let levels = trail.levels();
    trail.is_false(l)
        && (!trail.is_false(k) || levels[l.var() as usize - 1] < levels[k.var() as usize - 1])
}

/// The one of two literals that is to be watched beside `first`; `best` is `first` itself as long as there is none.
fn better(trail: &Trail, first: Lit, best: Lit, lit: Lit) -> Lit
    requires best { best.var ≤ trail.now.vars }
    requires lit { lit.var ≤ trail.now.vars }
    ensures better { result ≡ chosen.better trail.now.steps first best lit }
    ensures within { result.var ≤ trail.now.vars }
{
    if same_literal(lit, first) {
        best
    } else if same_literal(best, first) || is_higher(trail, lit, best) {
        lit
    } else {
        best
    }
}

/// A literal of a clause beside another one: one that isn't false, or else one of highest level; the other one itself
/// where the clause has no more.
pub fn highest_beside(trail: &Trail, lits: &[Lit], first: Lit) -> Lit
    requires within { All (λ l. l.var ≤ trail.now.vars) lits.now }
    requires first { first.var ≤ trail.now.vars }
    ensures highest { IsHighest trail.now.steps lits.now first result }
    ensures within { result.var ≤ trail.now.vars }
{
    let mut best = first;
    for lit in lits {
        best = better(trail, first, best, *lit);
    }
    best
}
