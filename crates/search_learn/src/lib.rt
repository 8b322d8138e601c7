//! The search machine's definition (conflict-driven clause learning with restarts by Luby's sequence), its laws, its
//! trail, and its conflict analysis: from a clause that is false on the trail to the clause learnt, with the hints that
//! let an LRAT checker follow it by unit propagation alone.
#![tactic(auto)]

ghost use Rattle.std.specs.Prelude.{All, List, [], get_or, ℕ, true, ◌==◌, IfOk, OnErr, OnOk, length, ◌+◌, ◌++◌, ◌<◌, ◌≡◌, ◌≤◌};
ghost use Rattle.sat_form.specs.Literals as literals;
ghost use Rattle.sat_form.specs.Literals.{negate};
ghost use Rattle.search_learn.specs.Analysis as analysis;
ghost use Rattle.search_learn.specs.Analysis.{lesson, seen};
ghost use Rattle.search_learn.specs.Trail as trails;
ghost use Rattle.search_learn.specs.Rule as rule;
ghost use Rattle.search_learn.specs.Rule.{IsTrail, clause_by_id};
ghost use Rattle.search_learn.specs.Trail.{IsLevels, clause_false, level_of};
ghost use Rattle.std.specs.List.{list_any};

mod laws;
mod learner;
mod moves;
mod trail;

pub use laws::{runs_end, sat_is_true, trails_follow};
pub use learner::Learner;
pub use moves::{assign, is_restart, luby, put_entries, restart};
use sat_form::{Clauses, Cnf, Lit};
use std::alloc::{AllocError, Global};
pub use trail::Trail;

/// What a step of the search machine comes to, or several steps in a row.
#[derive(Clone, Copy, Debug, PartialEq, Eq)]
pub enum Turn {
    /// The machine hasn't ended.
    More,
    /// Values were found that satisfy the clauses.
    Sat,
    /// The empty clause was learnt: no values satisfy the clauses.
    Unsat,
    /// The budget is used up, with so many steps spent.
    Budget(u64),
}

/// An entry of the trail: a literal that is true.
#[derive(Clone, Copy, Debug, PartialEq, Eq)]
pub struct Step {
    pub lit: Lit,
    /// The decision level at which it was assigned, 0 for what follows from the clauses alone.
    pub level: u32,
    /// The id of the clause that was unit, or 0 for a decision.
    pub reason: u64,
}

/// Whether a literal comes before another in a set: by variable, and of one variable the negative literal first.
fn stands_before(k: Lit, l: Lit) -> bool
    ensures { result ≡ literals.stands_before k l }
{
    k.var() < l.var() || (k.var() == l.var() && (!k.positive() && l.positive()))
}

/// Whether two literals are one.
fn same_literal(k: Lit, l: Lit) -> bool
    ensures { result ≡ literals.same_literal k l }
{
    k.var() == l.var() && k.positive() == l.positive()
}

/// Puts a literal into a set.
fn put(set: &mut Vec<Lit>, lit: Lit) -> Result<(), AllocError>
    ensures ok { OnOk result (set.new.items ≡ literals.put set.old.items lit) }
    ensures err { OnErr result (set.new.items ≡ set.old.items) }
{
    let mut at = 0;
    while at < set.len() {
        let here = set[at];
        if stands_before(lit, here) {
            break;
        }
        if same_literal(lit, here) {
            return Ok(());
        }
        at += 1;
    }
    set.insert(at, lit)?;
    Ok(())
}

/// A set without a literal.
fn without(alloc: Global, set: &[Lit], lit: Lit) -> Result<Vec<Lit>, AllocError>
    ensures { IfOk result (λ v. v.items ≡ literals.without set.now lit) }
{
    set.iter()
        .copied()
        .filter(|k| !same_literal(lit, *k))
        .collect(alloc)
}

/// Whether a literal is in a set.
fn contains(set: &[Lit], lit: Lit) -> bool
    ensures { result ≡ literals.member set.now lit }
{
    set.iter().any(|k| same_literal(lit, *k))
}

/// Puts the literals of a clause but one into a set.
fn put_others(set: &mut Vec<Lit>, clause: &[Lit], but: Lit) -> Result<(), AllocError>
    ensures { OnOk result (set.new.items ≡ literals.put_all set.old.items (literals.without clause.now but)) }
{
    for lit in clause {
        if !same_literal(but, *lit) {
            put(set, *lit)?;
        }
    }
    Ok(())
}

/// Puts literals into a set.
fn put_all(set: &mut Vec<Lit>, lits: &[Lit]) -> Result<(), AllocError>
    ensures { OnOk result (set.new.items ≡ literals.put_all set.old.items lits.now) }
{
    for lit in lits {
        put(set, *lit)?;
    }
    Ok(())
}

/// A learnt clause, without literals where there is none.
fn learnt_at(learnt: &Clauses, place: usize) -> &[Lit]
    ensures { result.now ≡ get_or learnt.now place [] }
{
    match learnt.get(place) {
        Some(lits) => lits,
        None => &[],
    }
}

/// The clause at a place, from 0: the given ones and then the learnt ones; without literals where there is none. O(1).
pub fn clause_at<'a>(clauses: &'a Cnf, learnt: &'a Clauses, place: usize) -> &'a [Lit]
    ensures { result.now ≡ get_or (clauses.now.clauses ++ learnt.now) place [] }
{
    match clauses.clauses.get(place) {
        Some(lits) => lits,
        None => learnt_at(learnt, place - clauses.clauses.len()),
    }
}

/// The literals of the clause with this id, none where there is no such clause.
fn clause_with<'a>(clauses: &'a Cnf, learnt: &'a Clauses, id: u64) -> &'a [Lit]
    ensures { result.now ≡ rule.clause_with (clauses.now.clauses ++ learnt.now) id }
{
    if id == 0 {
        return &[];
    }
    clause_at(clauses, learnt, (id - 1) as usize)
}

/// The level at which each variable was assigned.
fn levels_of(alloc: Global, vars: u32, trail: &[Step]) -> Result<Vec<u32>, AllocError>
    requires { All (λ e. (0 < e.lit.var) × (e.lit.var ≤ vars)) trail.now }
    ensures { IfOk result (λ levels. IsLevels levels.items trail.now) }
{
    let mut levels = vec![in alloc; 0; vars as usize]?;
    let mut left = trail.len();
    while left > 0 {
        left -= 1;
        let step = trail[left];
        levels[step.lit.var() as usize - 1] = step.level;
    }
    Ok(levels)
}

/// The level of a literal.
fn level_at(trail: &[Step], levels: &[u32], lit: Lit) -> u32
    requires { IsLevels levels.now trail.now }
    ensures { result ≡ level_of trail.now lit }
{
    let place = lit.var() as usize - 1;
    if place < levels.len() {
        levels[place]
    } else {
        0
    }
}

/// Whether a set has, beside one literal, one of a level.
fn has_other(trail: &[Step], levels: &[u32], set: &[Lit], but: Lit, level: u32) -> bool
    requires { IsLevels levels.now trail.now }
    ensures { result ≡ list_any (λ l. level_of trail.now l == level) (literals.without set.now but) }
{
    for lit in set {
        if !same_literal(but, *lit) && level_at(trail, levels, *lit) == level {
            return true;
        }
    }
    false
}

/// Whether an entry is resolved with the set.
fn is_resolved(trail: &[Step], levels: &[u32], set: &[Lit], step: &Step, level: u32) -> bool
    requires { IsLevels levels.now trail.now }
    ensures { (clause_of : ℕ → List literals.Literal) → result ≡ analysis.is_resolved clause_of trail.now level set.now step.now }
{
    let negated = step.lit.not();
    contains(set, negated)
        && (step.level == 0
            || (step.level == level && has_other(trail, levels, set, negated, level)))
}

/// The set behind a resolution with an entry's reason.
fn resolve(alloc: Global, set: &[Lit], step: &Step, reason: &[Lit]) -> Result<Vec<Lit>, AllocError>
    ensures { IfOk result (λ v. v.items ≡ literals.put_all (literals.without set.now (negate step.now.lit)) (literals.without reason.now step.now.lit)) }
{
    let mut rest = without(alloc, set, step.lit.not())?;
    put_others(&mut rest, reason, step.lit)?;
    Ok(rest)
}

/// The level to which the trail is cut.
fn back_level(trail: &[Step], levels: &[u32], set: &[Lit], level: u32) -> u32
    requires { IsLevels levels.now trail.now }
    ensures { result ≡ analysis.back_level trail.now level set.now }
{
    let mut back = 0;
    for lit in set {
        let here = level_at(trail, levels, *lit);
        if here != level && here > back {
            back = here;
        }
    }
    back
}

/// What a conflict teaches.
#[derive(Drop, Debug)]
pub struct Learnt {
    /// The learnt clause, in order of variables.
    pub lits: Vec<Lit>,
    /// The ids of the clauses that it follows from: the reasons used, in trail order, and then the false clause.
    pub hints: Vec<u64>,
    /// The level to which the trail is cut behind it.
    pub back: u32,
}

/// The clause that a conflict teaches: the false clause is resolved with reasons of the trail, from its last entry back,
/// until one literal of the current level is left; what is false at level 0 is resolved away.
///
/// The ids are places: 1 to the number of `clauses` for those, and `learnt` has the ids behind them. `trail` is one of
/// the machine, `level` its current level, and the clause `false_id` is false on it. Takes time
/// O(vars + entries * (literals of the set and of the reason)), and memory O(vars). The only error is want of memory.
pub fn learn(
    alloc: Global,
    clauses: &Cnf,
    learnt: &Clauses,
    trail: &[Step],
    level: u32,
    false_id: u64,
) -> Result<Learnt, AllocError>
    requires trail { IsTrail (clause_by_id clauses.now.clauses learnt.now) clauses.now.vars trail.now }
    requires level { level ≡ trails.level trail.now }
    requires known { (0 < false_id) × (false_id ≤ length clauses.now.clauses + length learnt.now) }
    requires conflict { clause_false trail.now (clause_by_id clauses.now.clauses learnt.now false_id) ≡ true }
    ensures { IfOk result (λ l. seen l ≡ lesson (clause_by_id clauses.now.clauses learnt.now) trail.now level false_id) }
{
    let levels = levels_of(alloc, clauses.vars, trail)?;
    let mut set = Vec::new(alloc);
    put_all(&mut set, clause_with(clauses, learnt, false_id))?;
    let mut hints = Vec::new(alloc);
    let mut left = trail.len();
    while left > 0 {
        left -= 1;
        let step = &trail[left];
        if is_resolved(trail, &levels, &set, step, level) {
            let id = step.reason;
            let reason = clause_with(clauses, learnt, id);
            set = resolve(alloc, &set, step, reason)?;
            hints.push(id)?;
        }
    }
    hints.reverse();
    hints.push(false_id)?;
    let back = back_level(trail, &levels, &set, level);
    Ok(Learnt {
        lits: set,
        hints,
        back,
    })
}
