//! Conflict analysis by marks on variables: the lesson of `learn`, at a cost of what the conflict touches.

ghost use Rattle.std.specs.Prelude.{◌+◌, ◌-◌, ◌<◌, ◌^◌, ◌≡◌, ◌≤◌, All, IfOk, List, OnOk, [], false, filter, fold, get_or, if◌then◌else◌, length, map, max, nat_eq, not, slice_set, true, ℕ};
ghost use Rattle.sat_form.specs.Assignment as assignment;
ghost use Rattle.sat_form.specs.Literals as literals;
ghost use Rattle.sat_form.specs.Literals.{Literal, negate};
ghost use Rattle.search_learn.specs.Analysis as analysis;
ghost use Rattle.search_learn.specs.Analysis.{lesson, seen};
ghost use Rattle.search_learn.specs.Marks.{AreClear, AreFalse, AreMarks, AreMarksOf, IsListing, Ordered};
ghost use Rattle.search_learn.specs.Rule.{IsTrail, clause_with};
ghost use Rattle.search_learn.specs.Trail as trails;
ghost use Rattle.search_learn.specs.Trail.{clause_false, level_of};
ghost use Rattle.search_learn.specs.declared.Step.{Step as Entry};

use crate::trail::Trail;
use crate::{Learnt, Step, same_literal};
use sat_form::{Clauses, Lit};
use std::alloc::{AllocError, Global};
use std::marker::Model;

/// Learns from conflicts. It keeps a mark for each variable, none of which is put between two conflicts; contracts see
/// how many variables there are.
#[derive(Drop)]
pub struct Learner {
    marks: Vec<bool>,
}

impl Model for Learner {
    ghost use Rattle.std.specs.Prelude.{ℕ, ◌^◌, ◌<◌, length};
    ghost use Rattle.search_learn.specs.Marks.{AreClear};

    ghost Value = { ℕ };

    ghost view = { λ l. length l.marks.items };

    ghost invariant = { λ l. (length l.marks.items < 2 ^ 31) × AreClear l.marks.items };
}

/// The literals of the clause with an id, none where there is no such clause.
fn literals(clauses: &Clauses, id: u64) -> &[Lit]
    ensures { result.now ≡ clause_with clauses.now id }
{
    if id == 0 {
        return &[];
    }
    match clauses.get((id - 1) as usize) {
        Some(lits) => lits,
        None => &[],
    }
}

/// Marks the variable of a literal. Answers how many of the marked ones are of the level then.
#[inline(always)]
fn mark(marks: &mut [bool], count: usize, levels: &[u32], level: u32, lit: Lit) -> usize
    requires place { lit.var ≤ length marks.old }
    requires levels { length levels.now ≡ length marks.old }
    requires room { count < 2 ^ 63 }
    ensures marks { marks.new ≡ slice_set marks.old (lit.var - 1) true }
    ensures count { result ≡ count + (if get_or marks.old (lit.var - 1) false then 0 else (if nat_eq (get_or levels.now (lit.var - 1) 0) level then 1 else 0)) }
{
    let place = lit.var() as usize - 1;
    if marks[place] {
        return count;
    }
    marks[place] = true;
    if levels[place] == level {
        count + 1
    } else {
        count
    }
}

/// Takes the mark of an entry's variable away. Answers how many of the marked ones are of the level then.
#[inline(always)]
fn unmark(marks: &mut [bool], count: usize, level: u32, step: &Step) -> usize
    requires place { step.now.lit.var ≤ length marks.old }
    requires some { nat_eq step.now.level level ≡ true → 0 < count }
    ensures marks { marks.new ≡ slice_set marks.old (step.now.lit.var - 1) false }
    ensures count { result ≡ count - (if nat_eq step.now.level level then 1 else 0) }
{
    marks[step.lit.var() as usize - 1] = false;
    if step.level == level {
        count - 1
    } else {
        count
    }
}

/// Marks the variables of a clause whose literals are false. Answers how many of the marked ones are of the level then.
fn mark_all(marks: &mut [bool], levels: &[u32], level: u32, clause: &[Lit]) -> usize
    requires { (t : List Entry) × (s : List Literal) × AreMarks level t levels.now marks.old 0 s × AreFalse t clause.now }
    ensures { (t : List Entry) (s : List Literal) → AreMarks level t levels.now marks.old 0 s → AreFalse t clause.now
        → AreMarks level t levels.now marks.new result (literals.put_all s clause.now) }
{
    let mut count = 0;
    for lit in clause {
        count = mark(marks, count, levels, level, *lit);
    }
    count
}

/// Marks the variables of a clause whose literals are false but for one, which is left out. Answers how many of the
/// marked ones are of the level then.
fn mark_others(
    marks: &mut [bool],
    count: usize,
    levels: &[u32],
    level: u32,
    clause: &[Lit],
    but: Lit,
) -> usize
    requires { (t : List Entry) × (s : List Literal) × AreMarks level t levels.now marks.old count s × AreFalse t (literals.without clause.now but) }
    ensures { (t : List Entry) (s : List Literal) → AreMarks level t levels.now marks.old count s → AreFalse t (literals.without clause.now but)
        → AreMarks level t levels.now marks.new result (literals.put_all s (literals.without clause.now but)) }
{
    let mut total = count;
    for lit in clause {
        if !same_literal(but, *lit) {
            total = mark(marks, total, levels, level, *lit);
        }
    }
    total
}

/// Resolves the marked literals with an entry's reason: the entry's variable loses its mark, and those of the reason's
/// other literals get theirs. Answers how many of the marked ones are of the level then.
fn resolve(
    marks: &mut [bool],
    count: usize,
    levels: &[u32],
    level: u32,
    step: &Step,
    reason: &[Lit],
) -> usize
    requires { (t : List Entry) × (s : List Literal) × AreMarks level t levels.now marks.old count s × (literals.member s (negate step.now.lit) ≡ true)
        × (level_of t (negate step.now.lit) ≡ step.now.level) × AreFalse t (literals.without reason.now step.now.lit) }
    ensures { (t : List Entry) (s : List Literal) → AreMarks level t levels.now marks.old count s → literals.member s (negate step.now.lit) ≡ true
        → level_of t (negate step.now.lit) ≡ step.now.level → AreFalse t (literals.without reason.now step.now.lit)
        → AreMarks level t levels.now marks.new result (literals.put_all (literals.without s (negate step.now.lit)) (literals.without reason.now step.now.lit)) }
{
    let left = unmark(marks, count, level, step);
    mark_others(marks, left, levels, level, reason, step.lit)
}

/// Whether an entry is resolved with the marked literals.
#[inline(always)]
fn is_resolved(marks: &[bool], count: usize, level: u32, step: &Step) -> bool
    requires { step.now.lit.var ≤ length marks.now }
    ensures { (t : List Entry) (levels : List ℕ) (s : List Literal) (clause_of : ℕ → List Literal) → AreMarks level t levels marks.now count s
        → assignment.is_false (trails.assigned t) (negate step.now.lit) ≡ true → level_of t (negate step.now.lit) ≡ step.now.level
        → result ≡ analysis.is_resolved clause_of t level s step.now }
{
    marks[step.lit.var() as usize - 1] && (step.level == 0 || (step.level == level && count > 1))
}

/// Whether the variable of an entry is marked.
#[inline(always)]
fn is_marked(marks: &[bool], step: &Step) -> bool
    requires { step.now.lit.var ≤ length marks.now }
    ensures { result ≡ get_or marks.now (step.now.lit.var - 1) false }
{
    marks[step.lit.var() as usize - 1]
}

/// What is left of a false clause that was resolved along the trail, the last entry's literal first, and the hints of
/// the learnt clause.
#[derive(Drop)]
struct Resolution {
    lits: Vec<Lit>,
    hints: Vec<u64>,
}

/// Goes from the false clause through the entries from the last to the first, and resolves; what is marked and isn't
/// resolved is left. The marks are then those of the literals that are left.
fn resolve_marked(
    alloc: Global,
    clauses: &Clauses,
    trail: &Trail,
    level: u32,
    marks: &mut [bool],
    false_id: u64,
) -> Result<Resolution, AllocError>
    requires small { length marks.old < 2 ^ 31 }
    requires clear { AreClear marks.old }
    requires vars { trail.now.vars ≡ length marks.old }
    requires trail { IsTrail (clause_with clauses.now) trail.now.vars trail.now.steps }
    requires level { level ≡ trails.level trail.now.steps }
    requires conflict { clause_false trail.now.steps (clause_with clauses.now false_id) ≡ true }
    ensures hints { IfOk result (λ r. r.hints.items ≡ (lesson (clause_with clauses.now) trail.now.steps level false_id).hints) }
    ensures left { IfOk result (λ r. IsListing (lesson (clause_with clauses.now) trail.now.steps level false_id).lits r.lits.items) }
    ensures marks { OnOk result ((levels : List ℕ) × (count : ℕ) × AreMarks level trail.now.steps levels marks.new count (lesson (clause_with clauses.now) trail.now.steps level false_id).lits) }
{
    let levels = trail.levels();
    let steps = trail.steps();
    let mut count = mark_all(marks, levels, level, literals(clauses, false_id));
    let mut lits = Vec::new(alloc);
    let mut hints = Vec::new(alloc);
    let mut left = steps.len();
    while left > 0 {
        left -= 1;
        let step = &steps[left];
        if is_resolved(marks, count, level, step) {
            let reason = literals(clauses, step.reason);
            count = resolve(marks, count, levels, level, step, reason);
            hints.push(step.reason)?;
        } else if is_marked(marks, step) {
            lits.push(step.lit.not())?;
        }
    }
    hints.reverse();
    hints.push(false_id)?;
    Ok(Resolution { lits, hints })
}

/// Puts the literals of a set, listed in any order, into the order of sets. O(count log count).
fn sort(lits: &mut Vec<Lit>)
    ensures { (s : List Literal) → Ordered 0 s → IsListing s lits.old.items → lits.new.items ≡ s }
{
    lits.sort_unstable_by_key(|lit| lit.var());
}

/// Takes the marks of a clause's variables away, where no other variable is marked.
fn unmark_all(marks: &mut [bool], lits: &[Lit])
    requires within { All (λ l. l.var ≤ length marks.old) lits.now }
    requires marked { AreMarksOf marks.old lits.now }
    ensures { AreClear marks.new }
{
    for lit in lits {
        let place = lit.var() as usize - 1;
        marks[place] = false;
    }
}

/// The level of a literal's variable.
#[inline(always)]
fn level_in(levels: &[u32], lit: Lit) -> u32
    requires { lit.var ≤ length levels.now }
    ensures { result ≡ get_or levels.now (lit.var - 1) 0 }
{
    levels[lit.var() as usize - 1]
}

/// The greatest level among literals that isn't the current one, or 0.
fn greatest_other(levels: &[u32], level: u32, lits: &[Lit]) -> u32
    requires { All (λ l. l.var ≤ length levels.now) lits.now }
    ensures { result ≡ fold max 0 (filter (λ n. not (nat_eq n level)) (map (λ l. get_or levels.now (l.var - 1) 0) lits.now)) }
{
    let mut back = 0;
    for lit in lits {
        let here = level_in(levels, *lit);
        if here != level && here > back {
            back = here;
        }
    }
    back
}

/// What a conflict teaches; the marks are taken away again, but after a refusal.
fn marked_lesson(
    alloc: Global,
    clauses: &Clauses,
    trail: &Trail,
    marks: &mut [bool],
    false_id: u64,
) -> Result<Learnt, AllocError>
    requires small { length marks.old < 2 ^ 31 }
    requires clear { AreClear marks.old }
    requires vars { trail.now.vars ≡ length marks.old }
    requires trail { IsTrail (clause_with clauses.now) trail.now.vars trail.now.steps }
    requires conflict { clause_false trail.now.steps (clause_with clauses.now false_id) ≡ true }
    ensures lesson { IfOk result (λ l. seen l ≡ lesson (clause_with clauses.now) trail.now.steps (trails.level trail.now.steps) false_id) }
    ensures clear { OnOk result (AreClear marks.new) }
{
    let level = trail.level();
    let Resolution { mut lits, hints } = resolve_marked(
        alloc, clauses, trail, level, marks, false_id,
    )?;
    sort(&mut lits);
    unmark_all(marks, &lits);
    let back = greatest_other(trail.levels(), level, &lits);
    Ok(Learnt { lits, hints, back })
}

/// Takes all marks away.
fn clear(marks: &mut [bool])
    ensures { AreClear marks.new }
{
    for mark in marks.iter_mut() {
        *mark = false;
    }
}

impl Learner {
    /// A learner over the variables 1 to `vars`. O(vars). The only error is want of memory.
    pub fn new(alloc: Global, vars: u32) -> Result<Learner, AllocError>
        requires { vars < 2 ^ 31 }
        ensures { IfOk result (λ learner. learner ≡ vars) }
    {
        Ok(Learner {
            marks: vec![in alloc; false; vars as usize]?,
        })
    }

    /// The clause that a conflict teaches, as `learn` has it: the false clause is resolved with reasons of the trail, from
    /// its last entry back, until one literal of the current level is left; what is false at level 0 is resolved away.
    ///
    /// The ids are the places of `clauses`, from 1. `trail` is one of the machine, over as many variables, and the clause
    /// `false_id` is false on it. Takes time O(entries + literals of the clauses that are resolved + count log count) where
    /// `count` literals are learnt. The only error is want of memory, behind which it takes O(vars) more and serves on.
    pub fn learn(
        &mut self,
        alloc: Global,
        clauses: &Clauses,
        trail: &Trail,
        false_id: u64,
    ) -> Result<Learnt, AllocError>
        requires vars { trail.now.vars ≡ self.old }
        requires trail { IsTrail (clause_with clauses.now) trail.now.vars trail.now.steps }
        requires known { (0 < false_id) × (false_id ≤ length clauses.now) }
        requires conflict { clause_false trail.now.steps (clause_with clauses.now false_id) ≡ true }
        ensures lesson { IfOk result (λ l. seen l ≡ lesson (clause_with clauses.now) trail.now.steps (trails.level trail.now.steps) false_id) }
        ensures vars { self.new ≡ self.old }
    {
        match marked_lesson(alloc, clauses, trail, &mut self.marks, false_id) {
            Ok(learnt) => Ok(learnt),
            Err(error) => {
                clear(&mut self.marks);
                Err(error)
            }
        }
    }
}
