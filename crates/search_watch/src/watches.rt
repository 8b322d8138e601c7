//! The clauses of a search with their watches, and the lists of the clauses that are watched at each literal.

ghost use Rattle.std.specs.Prelude.{◌++◌, ◌+◌, ◌-◌, ◌∷◌, ◌≡◌, ◌≢◌, ◌<◌, ◌≤◌, ◌^◌, [], All, IfOk, None, OnErr, OnOk, drop, false, get_or, length, slice_set, true};
ghost use Rattle.search_learn.specs.Cases.{put_entries, unit_entries};
ghost use Rattle.search_learn.specs.Machine as machine;
ghost use Rattle.search_learn.specs.Machine.{numbered};
ghost use Rattle.search_learn.specs.Trail as trails;
ghost use Rattle.search_learn.specs.Values.{AreValues, IsOfMachine};
ghost use Rattle.search_watch.specs.Added.{decision, entered, filled, least_with, no_clause, units_with};
ghost use Rattle.sat_form.specs.Shape.{are_within};
ghost use Rattle.search_watch.specs.Chosen.{IsOpen};
ghost use Rattle.search_watch.specs.Watched as watched;
ghost use Rattle.search_watch.specs.Members.{IsUnassigned};
ghost use Rattle.search_watch.specs.Nets.{IsNet, IsShaped, negated, net, visited};

use crate::learnt::{free_literal, highest_beside};
use crate::units;
use crate::walk::walk;
use crate::watch::{Found, Outcome, Pair, UnitClause, index_of, look_at};
use sat_form::{Clauses, Cnf, Lit};
use search_learn::{Step, Trail, assign};
use std::alloc::{AllocError, Global};
use std::mem;

/// The clauses of a search, the two watched literals of each, the clauses that are watched at each literal, and those
/// of them that were found to be unit or false.
#[derive(Drop)]
pub struct Watches {
    pub alloc: Global,
    pub clauses: Clauses,
    pub pairs: Vec<Pair>,
    pub lists: Vec<Vec<usize>>,
    pub found: Found,
}

impl Watches {
    /// No clause, over the variables 1 to `vars`.
    fn new(alloc: Global, vars: u32) -> Result<Watches, AllocError>
        requires { vars < 2 ^ 31 }
        ensures { IfOk result (λ w. net w ≡ no_clause vars) }
    {
        let count = 2 * vars as usize + 2;
        let mut lists = Vec::with_capacity(alloc, count)?;
        for _ in 0..count {
            lists.push(Vec::new(alloc))?;
        }
        Ok(Watches {
            alloc,
            clauses: Clauses::new(alloc),
            pairs: Vec::new(alloc),
            lists,
            found: Found {
                units: Vec::new(alloc),
                false_clause: None,
            },
        })
    }

    /// The clauses of a formula, watched on a trail without entries.
    pub fn of(alloc: Global, trail: &Trail, cnf: &Cnf) -> Result<Watches, AllocError>
        requires none { trail.now.steps ≡ [] }
        requires vars { trail.now.vars ≡ cnf.now.vars }
        ensures net { IfOk result (λ w. IsNet trail.now.vars trail.now.steps [] (net w)) }
        ensures clauses { IfOk result (λ w. w.clauses ≡ cnf.now.clauses) }
    {
        let mut watches = Watches::new(alloc, cnf.vars)?;
        let mut at = 0;
        while let Some(lits) = cnf.clauses.get(at) {
            watches.take_in(trail, lits)?;
            at += 1;
        }
        Ok(watches)
    }

    /// Adds a clause of the formula.
    fn take_in(&mut self, trail: &Trail, lits: &[Lit]) -> Result<(), AllocError>
        requires net { IsNet trail.now.vars trail.now.steps [] (net self.old) }
        requires none { trail.now.steps ≡ [] }
        requires small { trail.now.vars < 2 ^ 32 }
        requires within { are_within trail.now.vars lits.now ≡ true }
        ensures net { OnOk result (IsNet trail.now.vars trail.now.steps [] (net self.new)) }
        ensures clauses { OnOk result (self.new.clauses ≡ self.old.clauses ++ lits.now ∷ []) }
    {
        if lits.is_empty() {
            self.add_empty(trail.values().len() as u32)?;
        } else {
            self.add(trail, lits)?;
        }
        Ok(())
    }

    /// Puts a pair at the place of a clause without literals, which no list names.
    fn fill(&mut self, vars: u32) -> Result<(), AllocError>
        ensures { OnOk result (net self.new ≡ record (net self.old) { pairs = filled vars (net self.old).pairs }) }
    {
        if vars > 0 {
            let none = Lit::new(1, true);
            self.pairs.push(Pair {
                first: none,
                second: none,
            })?;
        }
        Ok(())
    }

    /// Adds a clause without literals, and notes that it is false.
    fn add_empty(&mut self, vars: u32) -> Result<(), AllocError>
        requires net { IsNet vars [] [] (net self.old) }
        ensures net { OnOk result (IsNet vars [] [] (net self.new)) }
        ensures clauses { OnOk result (self.new.clauses ≡ self.old.clauses ++ [] ∷ []) }
    {
        let clause = self.clauses.len();
        self.clauses.push(&[])?;
        self.fill(vars)?;
        self.found.note_false(clause);
        Ok(())
    }

    /// Looks at the clauses in the list of a literal that is false.
    fn visit(&mut self, trail: &[Step], values: &[Option<bool>], lit: Lit) -> Result<(), AllocError>
        requires values { AreValues (length values.now) values.now trail.now }
        requires within { lit.var ≤ length values.now }
        requires shape { IsShaped (length values.now) (net self.old) }
        ensures net { OnOk result (net self.new ≡ visited trail.now lit (net self.old)) }
        ensures clauses { self.new.clauses ≡ self.old.clauses }
    {
        let at = index_of(lit);
        let mut list = mem::replace(&mut self.lists[at], Vec::new(self.alloc));
        let kept = walk(
            trail,
            values,
            &self.clauses,
            &mut self.pairs,
            &mut self.lists,
            &mut self.found,
            &mut list,
            lit,
        )?;
        list.truncate(kept);
        self.lists[at] = list;
        Ok(())
    }

    /// Looks at the clauses that the entries from a place on may have made unit or false.
    pub fn look(
        &mut self,
        trail: &[Step],
        values: &[Option<bool>],
        from: usize,
    ) -> Result<(), AllocError>
        requires values { AreValues (length values.now) values.now trail.now }
        requires within { All (λ e. e.lit.var ≤ length values.now) trail.now }
        requires net { IsNet (length values.now) trail.now (negated (drop from trail.now)) (net self.old) }
        ensures net { OnOk result (IsNet (length values.now) trail.now [] (net self.new)) }
        ensures clauses { self.new.clauses ≡ self.old.clauses }
    {
        let mut at = from;
        while at < trail.len() {
            let lit = trail[at].lit.not();
            self.visit(trail, values, lit)?;
            at += 1;
        }
        Ok(())
    }

    /// A round: the literal of each unit clause goes on the trail, in rising order, unless its variable is there by
    /// now; then the clauses are found that became unit or false. Answers how many literals went.
    pub fn round(
        &mut self,
        trail: &mut Trail,
        signs: &mut [bool],
        level: u32,
    ) -> Result<u64, AllocError>
        requires net { IsNet trail.old.vars trail.old.steps [] (net self.old) }
        requires quiet { self.old.found.false_clause ≡ None }
        requires room { length self.old.clauses < 2 ^ 63 }
        requires signs { length signs.old ≡ trail.old.vars }
        requires level { level ≡ trails.level trail.old.steps }
        requires machine { IsOfMachine trail.old.vars trail.old.steps }
        ensures put { IfOk result (λ count. (m : machine.State) → m.trail ≡ trail.old.steps → m.signs ≡ signs.old
            → put_entries (unit_entries trail.old.steps level (numbered 1 self.old.clauses)) m ≡ record m { trail = trail.new.steps; signs = signs.new; spent = m.spent + count }) }
        ensures count { IfOk result (λ count. count < 2 ^ 63) }
        ensures net { OnOk result (IsNet trail.new.vars trail.new.steps [] (net self.new)) }
        ensures clauses { self.new.clauses ≡ self.old.clauses }
        ensures vars { OnOk result (trail.new.vars ≡ trail.old.vars) }
        ensures signs { OnOk result (length signs.new ≡ length signs.old) }
    {
        units::sort(&mut self.found.units);
        let from = trail.steps().len();
        let count = units::put(&self.found.units, trail, signs, level)?;
        self.found.false_clause = units::least_broken(&self.found.units, trail);
        self.found.units.clear();
        self.look(trail.steps(), trail.values(), from)?;
        Ok(count)
    }

    /// Enters a clause in the list of a literal.
    fn enter(&mut self, lit: Lit, clause: usize) -> Result<(), AllocError>
        requires { watched.index_of lit < length self.old.lists.items }
        ensures net { OnOk result (net self.new ≡ record (net self.old) { lists = entered (net self.old).lists lit clause }) }
        ensures clauses { self.new.clauses ≡ self.old.clauses }
    {
        self.lists[index_of(lit)].push(clause)?;
        Ok(())
    }

    /// Notes whether a clause is unit or false, where this is said by one of its literals and a search for another one.
    fn note(&mut self, clause: usize, lit: Lit, seen: Outcome) -> Result<(), AllocError>
        ensures net { OnOk result (net self.new ≡ record (net self.old) { units = units_with seen clause lit (net self.old).units; least = least_with seen clause (net self.old).least }) }
        ensures clauses { self.new.clauses ≡ self.old.clauses }
    {
        match seen {
            Outcome::Implies => self.found.units.push(UnitClause { clause, lit })?,
            Outcome::Fails => self.found.note_false(clause),
            _ => {}
        }
        Ok(())
    }

    /// Adds a clause with literals, watched on a trail, and notes whether it is unit or false there. After a refusal
    /// the clauses are as before.
    pub fn add(&mut self, trail: &Trail, lits: &[Lit]) -> Result<(), AllocError>
        requires net { IsNet trail.now.vars trail.now.steps [] (net self.old) }
        requires some { lits.now ≢ [] }
        requires variables { 0 < trail.now.vars }
        requires within { All (λ l. l.var ≤ trail.now.vars) lits.now }
        requires machine { IsOfMachine trail.now.vars trail.now.steps }
        requires open { 0 < trails.level trail.now.steps → IsOpen trail.now.steps lits.now }
        ensures net { OnOk result (IsNet trail.now.vars trail.now.steps [] (net self.new)) }
        ensures clauses { OnOk result (self.new.clauses ≡ self.old.clauses ++ lits.now ∷ []) }
        ensures kept { OnErr result (self.new.clauses ≡ self.old.clauses) }
    {
        let clause = self.clauses.len();
        let first = free_literal(trail, lits);
        let second = highest_beside(trail, lits, first);
        self.pairs.push(Pair { first, second })?;
        self.enter(first, clause)?;
        self.enter(second, clause)?;
        let seen = look_at(trail.steps(), trail.values(), lits, first);
        self.note(clause, first, seen)?;
        self.clauses.push(lits)?;
        Ok(())
    }

    /// Forgets what was found.
    pub fn forget(&mut self)
        ensures { net self.new ≡ record (net self.old) { units = []; least = None } }
    {
        self.found.units.clear();
        self.found.false_clause = None;
    }

    /// Puts a variable on the trail as a decision with its sign, and finds the clauses that this makes unit or false.
    pub fn decide(
        &mut self,
        trail: &mut Trail,
        signs: &mut [bool],
        var: u32,
    ) -> Result<(), AllocError>
        requires net { IsNet trail.old.vars trail.old.steps [] (net self.old) }
        requires least { self.old.found.false_clause ≡ None }
        requires units { self.old.found.units.items ≡ [] }
        requires machine { IsOfMachine trail.old.vars trail.old.steps }
        requires vars { trail.old.vars < 2 ^ 31 }
        requires signs { length signs.old ≡ trail.old.vars }
        requires var { (0 < var) × (var ≤ trail.old.vars) }
        requires free { IsUnassigned trail.old.steps var }
        ensures trail { OnOk result (trail.new ≡ record trail.old { steps = trail.old.steps ++ decision trail.old.steps signs.old var ∷ [] }) }
        ensures signs { OnOk result (signs.new ≡ slice_set signs.old (var - 1) (get_or signs.old (var - 1) false)) }
        ensures net { OnOk result (IsNet trail.new.vars trail.new.steps [] (net self.new)) }
        ensures clauses { self.new.clauses ≡ self.old.clauses }
    {
        let from = trail.steps().len();
        let step = Step {
            lit: Lit::new(var, signs[var as usize - 1]),
            level: trail.level() + 1,
            reason: 0,
        };
        assign(trail, signs, step)?;
        self.look(trail.steps(), trail.values(), from)
    }
}
