//! The clauses that may have become unit or false: each clause is watched at two of its literals, and only those that
//! are watched at a literal which became false are looked at.

ghost use Rattle.std.specs.Prelude.{◌≡◌, ◌≤◌, All, length};
ghost use Rattle.sat_form.specs.Literals as literals;
ghost use Rattle.search_learn.specs.Values.{AreValues};
ghost use Rattle.search_watch.specs.Visits as visits;
ghost use Rattle.search_watch.specs.Watched as watched;

use crate::value;
use sat_form::Lit;
use search_learn::Step;

/// The two literals at which a clause is watched; twice the same where the clause has no other.
#[derive(Clone, Copy, Debug)]
pub struct Pair {
    pub first: Lit,
    pub second: Lit,
}

/// A clause that is unit, and its unassigned literal.
#[derive(Clone, Copy, Debug)]
pub struct UnitClause {
    pub clause: usize,
    pub lit: Lit,
}

/// What a visit of a clause at a false literal comes to.
#[derive(Clone, Copy, Debug)]
pub enum Outcome {
    /// The other watched literal is true.
    Stays,
    /// This literal isn't false, and is to be watched.
    Moves(Lit),
    /// All others are false, and the other watched one is unassigned.
    Implies,
    /// All are false.
    Fails,
}

/// What was found: the unit clauses, and the false clause of least place.
#[derive(Drop)]
pub struct Found {
    pub units: Vec<UnitClause>,
    pub false_clause: Option<usize>,
}

/// Whether two literals are one.
#[inline(always)]
pub fn same_literal(k: Lit, l: Lit) -> bool
    ensures { result ≡ literals.same_literal k l }
{
    k.var() == l.var() && k.positive() == l.positive()
}

/// The place of a literal in a table by literals: twice the variable, and one more where it is negated.
#[inline(always)]
pub fn index_of(lit: Lit) -> usize
    ensures { result ≡ watched.index_of lit }
{
    2 * lit.var() as usize + if lit.positive() { 0 } else { 1 }
}

impl Pair {
    /// The watched literal beside one of the two.
    #[inline(always)]
    pub fn other(self, lit: Lit) -> Lit
        ensures { result ≡ watched.other self lit }
    {
        if same_literal(self.first, lit) {
            self.second
        } else {
            self.first
        }
    }
}

impl Found {
    /// Notes a clause that is false.
    #[inline(always)]
    pub fn note_false(&mut self, clause: usize)
        ensures least { self.new.false_clause ≡ watched.lesser self.old.false_clause clause }
        ensures units { self.new.units ≡ self.old.units }
    {
        match self.false_clause {
            Some(least) => {
                if clause < least {
                    self.false_clause = Some(clause);
                }
            }
            None => self.false_clause = Some(clause),
        }
    }
}

/// A literal that isn't false, other than the given one.
#[inline(always)]
fn replacement(trail: &[Step], values: &[Option<bool>], lits: &[Lit], other: Lit) -> Option<Lit>
    requires values { AreValues (length values.now) values.now trail.now }
    requires within { All (λ l. l.var ≤ length values.now) lits.now }
    ensures { result ≡ watched.replacement trail.now lits.now other }
{
    for lit in lits {
        if !value::is_false(trail, values, *lit) && !same_literal(*lit, other) {
            return Some(*lit);
        }
    }
    None
}

/// What a visit of a clause comes to, where all is said by its other watched literal and its literals.
#[inline(always)]
pub fn look_at(trail: &[Step], values: &[Option<bool>], lits: &[Lit], other: Lit) -> Outcome
    requires values { AreValues (length values.now) values.now trail.now }
    requires within { All (λ l. l.var ≤ length values.now) lits.now }
    requires other { other.var ≤ length values.now }
    ensures { result ≡ visits.outcome trail.now lits.now other }
{
    if value::is_true(trail, values, other) {
        return Outcome::Stays;
    }
    match replacement(trail, values, lits, other) {
        Some(next) => Outcome::Moves(next),
        None => {
            if value::is_false(trail, values, other) {
                Outcome::Fails
            } else {
                Outcome::Implies
            }
        }
    }
}
