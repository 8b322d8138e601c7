//! The walk along the list of a literal that became false.

ghost use Rattle.std.specs.Prelude.{◌≡◌, ◌+◌, ◌<◌, ◌≤◌, ◌^◌, ◌*◌, ◌∷◌, ◌++◌, [], ℕ, All, IfOk, OnOk, List, length, get_or, set, slice_set, take, drop, map};
ghost use Rattle.sat_form.specs.Literals.{Literal};
ghost use Rattle.search_learn.specs.Values.{AreValues};
ghost use Rattle.search_watch.specs.Visits as visits;
ghost use Rattle.search_watch.specs.Watched as watched;

use crate::watch::{Found, Outcome, Pair, UnitClause, index_of, look_at};
use sat_form::{Clauses, Lit};
use search_learn::Step;
use std::alloc::AllocError;

/// Watches a clause at another literal.
#[inline(always)]
fn watch_at(
    pairs: &mut [Pair],
    lists: &mut [Vec<usize>],
    clause: usize,
    other: Lit,
    next: Lit,
) -> Result<(), AllocError>
    requires clause { clause < length pairs.old }
    requires next { watched.index_of next < length lists.old }
    ensures pairs { OnOk result (pairs.new ≡ slice_set pairs.old clause (record { first = other; second = next })) }
    ensures lists { OnOk result (visits.entries_of lists.new ≡ set (visits.entries_of lists.old) (watched.index_of next) (visits.list_at (visits.entries_of lists.old) next ++ clause ∷ [])) }
{
    lists[index_of(next)].push(clause)?;
    pairs[clause] = Pair {
        first: other,
        second: next,
    };
    Ok(())
}

/// Keeps a clause in the list that is walked along.
#[inline(always)]
fn keep(entries: &mut [usize], kept: usize, clause: usize) -> usize
    requires { kept < length entries.old }
    ensures kept { result ≡ kept + 1 }
    ensures front { take result entries.new ≡ take kept entries.old ++ clause ∷ [] }
    ensures back { drop (kept + 1) entries.new ≡ drop (kept + 1) entries.old }
{
    entries[kept] = clause;
    kept + 1
}

/// Notes a unit clause.
#[inline(always)]
fn note_unit(found: &mut Found, clause: usize, lit: Lit) -> Result<(), AllocError>
    ensures units { OnOk result (found.new.units.items ≡ found.old.units.items ++ record { clause = clause; lit = lit } ∷ []) }
    ensures least { found.new.false_clause ≡ found.old.false_clause }
{
    found.units.push(UnitClause { clause, lit })?;
    Ok(())
}

/// Visits a clause of the list, and answers how many of it are kept.
#[inline(always)]
fn visit(
    trail: &[Step],
    values: &[Option<bool>],
    lits: &[Lit],
    pairs: &mut [Pair],
    lists: &mut [Vec<usize>],
    found: &mut Found,
    entries: &mut [usize],
    kept: usize,
    clause: usize,
    other: Lit,
) -> Result<usize, AllocError>
    requires values { AreValues (length values.now) values.now trail.now }
    requires within { All (λ l. l.var ≤ length values.now) lits.now }
    requires other { other.var ≤ length values.now }
    requires clause { clause < length pairs.old }
    requires kept { kept < length entries.old }
    requires room { (k : Literal) → k.var ≤ length values.now → watched.index_of k < length lists.old }
    ensures table { IfOk result (λ k. visits.table pairs.new lists.new found.new (take k entries.new) ≡ visits.visit_as other clause (visits.outcome trail.now lits.now other) (visits.table pairs.old lists.old found.old (take kept entries.old))) }
    ensures kept { IfOk result (λ k. k ≤ kept + 1) }
    ensures back { IfOk result (λ k. drop (kept + 1) entries.new ≡ drop (kept + 1) entries.old) }
{
    match look_at(trail, values, lits, other) {
        Outcome::Stays => Ok(keep(entries, kept, clause)),
        Outcome::Moves(next) => {
            watch_at(pairs, lists, clause, other, next)?;
            Ok(kept)
        }
        Outcome::Implies => {
            note_unit(found, clause, other)?;
            Ok(keep(entries, kept, clause))
        }
        Outcome::Fails => {
            found.note_false(clause);
            Ok(keep(entries, kept, clause))
        }
    }
}

/// The literals of a clause, none where there is no such clause.
#[inline(always)]
fn clause_of(clauses: &Clauses, at: usize) -> &[Lit]
    ensures { result.now ≡ get_or clauses.now at [] }
{
    match clauses.get(at) {
        Some(lits) => lits,
        None => &[],
    }
}

/// Visits the clauses in the list of a literal that is false. Those that stay move to the front, and it answers how many they are.
pub fn walk(
    trail: &[Step],
    values: &[Option<bool>],
    clauses: &Clauses,
    pairs: &mut [Pair],
    lists: &mut [Vec<usize>],
    found: &mut Found,
    entries: &mut [usize],
    lit: Lit,
) -> Result<usize, AllocError>
    requires values { AreValues (length values.now) values.now trail.now }
    requires within { (i : ℕ) → All (λ l. l.var ≤ length values.now) (visits.clause_at clauses.now i) }
    requires pairs { visits.ArePairsLow (length values.now) pairs.old }
    requires entries { (k : ℕ) → k < length entries.old → get_or entries.old k 0 < length pairs.old }
    requires room { (k : Literal) → k.var ≤ length values.now → watched.index_of k < length lists.old }
    ensures { IfOk result (λ kept. visits.table pairs.new lists.new found.new (take kept entries.new) ≡ visits.walk trail.now clauses.now lit entries.old (visits.table pairs.old lists.old found.old [])) }
{
    let mut kept = 0;
    for at in 0..entries.len() {
        let clause = entries[at];
        let other = pairs[clause].other(lit);
        let lits = clause_of(clauses, clause);
        kept = visit(
            trail, values, lits, pairs, lists, found, entries, kept, clause, other,
        )?;
    }
    Ok(kept)
}
