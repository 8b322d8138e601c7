//! The search machine of conflict-driven clause learning in its plain form: each step looks through all clauses. It is
//! the simplest program that meets the machine's definition step by step.
#![tactic(auto)]

ghost use Rattle.std.specs.Prelude.{IfNone, IfOk, IfSome, List, OnErr, OnOk, OnSome, [], false, true, ◌^◌, ◌≡◌, ◌≢◌, ◌≤◌, length};
ghost use Rattle.std.specs.Option.{option_copied, option_map};
ghost use Rattle.sat_form.specs.Truth.{satisfies, value_of};
ghost use Rattle.search_learn.specs.Analysis as analysis;
ghost use Rattle.search_learn.specs.Analysis.{seen};
ghost use Rattle.search_learn.specs.Machine as machine;
ghost use Rattle.search_learn.specs.Engine.{IsSameTask, begun, stepped};
ghost use Rattle.search_learn.specs.Trail as trails;
ghost use Rattle.search_learn.specs.Cases.{IsChoice, IsConflict, IsRound, Teaches};
ghost use Rattle.search_plain.specs.Cases.{IsCase};

mod clauses;
mod moves;
mod scan;

use sat_form::{Clauses, Cnf, Lit};
use search_learn::{Learnt, Step, Trail, Turn, assign, learn, put_entries, restart};
use std::alloc::{AllocError, Global};
use std::marker::Model;

/// A run of the search machine over the clauses that it was made with, up to a budget of steps.
///
/// It keeps its clauses, its budget, the machine's state, and what the last step learnt.
#[derive(Drop)]
pub struct Plain {
    alloc: Global,
    clauses: Cnf,
    learnt: Clauses,
    trail: Trail,
    scores: Vec<u128>,
    signs: Vec<bool>,
    budget: u64,
    spent: u64,
    conflicts: u64,
    restarts: u64,
    since: u64,
    end: Turn,
    last: Option<Learnt>,
    broken: bool,
}

/// Which case the next step is: the machine has ended, ends, meets a false clause, has unit clauses, or decides.
enum Case {
    Ended,
    Solved,
    Spent,
    Conflict(u64),
    Units,
    Choice,
}

impl Model for Plain {
    ghost use Rattle.std.specs.Prelude.{List, false, length, ◌++◌, ◌≡◌};
    ghost use Rattle.std.specs.Option.{option_map};
    ghost use Rattle.search_learn.specs.Analysis.{seen};
    ghost use Rattle.search_learn.specs.Machine.{numbered};
    ghost use Rattle.search_learn.specs.Engine.{Engine};
    ghost use Rattle.search_learn.specs.Kept.{Holds};

    ghost Value = { Engine };

    ghost view = { λ p. record {
      vars = p.clauses.vars;
      clauses = p.clauses.clauses;
      budget = p.budget;
      state = record {
        vars = p.clauses.vars;
        inputs = length p.clauses.clauses;
        clauses = numbered 1 (p.clauses.clauses ++ p.learnt);
        trail = p.trail.steps;
        scores = p.scores.items;
        signs = p.signs.items;
        spent = p.spent;
        conflicts = p.conflicts;
        restarts = p.restarts;
        since = p.since;
        end = p.end;
      };
      last = option_map seen p.last;
      broken = p.broken;
    } };

    ghost invariant = { λ p. p.broken ≡ false → Holds p.clauses.clauses p.budget p.trail.vars (length p.learnt) (record {
      vars = p.clauses.vars;
      inputs = length p.clauses.clauses;
      clauses = numbered 1 (p.clauses.clauses ++ p.learnt);
      trail = p.trail.steps;
      scores = p.scores.items;
      signs = p.signs.items;
      spent = p.spent;
      conflicts = p.conflicts;
      restarts = p.restarts;
      since = p.since;
      end = p.end;
    }) };
}

impl Plain {
    /// The machine at its start. The only error is want of memory. O(size of the clauses).
    pub fn new(alloc: Global, cnf: &Cnf, budget: u64) -> Result<Plain, AllocError>
        requires { budget ≤ 2 ^ 62 }
        ensures { IfOk result (λ p. p ≡ begun cnf.now.vars cnf.now.clauses budget) }
    {
        let vars = cnf.vars as usize;
        Ok(Plain {
            alloc,
            clauses: cnf.copy(alloc)?,
            learnt: Clauses::new(alloc),
            trail: Trail::new(alloc, cnf.vars)?,
            scores: vec![in alloc; 0; vars]?,
            signs: vec![in alloc; false; vars]?,
            budget,
            spent: 0,
            conflicts: 0,
            restarts: 0,
            since: 0,
            end: Turn::More,
            last: None,
            broken: false,
        })
    }

    /// One step of the machine.
    ///
    /// `More` comes exactly where the machine hasn't ended behind it; an end is answered again by later steps. After a
    /// refusal for want of memory every later step is refused likewise. Takes O(size of all clauses) and, at a
    /// conflict, what `learn` takes.
    pub fn step(&mut self) -> Result<Turn, AllocError>
        ensures step { OnOk result (self.new ≡ stepped self.old) }
        ensures turn { IfOk result (λ turn. turn ≡ self.new.state.end) }

        // Once refused, it is refused again.
        ensures memory { OnErr result (self.new.broken ≡ true) }
        ensures again { OnOk result (self.old.broken ≡ false) }
        ensures kept { OnErr result (IsSameTask self.old self.new) }
    {
        if self.broken {
            return Err(AllocError);
        }
        match self.next_case() {
            Case::Ended => self.stop(self.end),
            Case::Solved => self.stop(Turn::Sat),
            Case::Spent => self.stop(Turn::Budget(self.spent)),
            Case::Conflict(id) => self.learn_from(id)?,
            Case::Units => self.put_units()?,
            Case::Choice => self.decide()?,
        }
        Ok(self.end)
    }

    /// Which case the next step is.
    fn next_case(&self) -> Case
        requires { self.now.broken ≡ false }
        ensures { IsCase self.now.budget self.now.state result }
    {
        match self.end {
            Turn::More => self.case_before_end(),
            _ => Case::Ended,
        }
    }

    /// The same before the end.
    fn case_before_end(&self) -> Case
        requires whole { self.now.broken ≡ false }
        requires going { self.now.state.end ≡ Turn.More }
        ensures { IsCase self.now.budget self.now.state result }
    {
        let spent = self.spent >= self.budget;
        match clauses::false_clause(&self.clauses, &self.learnt, &self.trail) {
            Some(id) => {
                return if spent {
                    Case::Spent
                } else {
                    Case::Conflict(id)
                };
            }
            None => {}
        }
        if clauses::has_unit(&self.clauses, &self.learnt, &self.trail) {
            return if spent { Case::Spent } else { Case::Units };
        }
        if clauses::all_assigned(self.clauses.vars, &self.trail) {
            return Case::Solved;
        }
        if spent { Case::Spent } else { Case::Choice }
    }

    /// A step that only ends the machine.
    fn stop(&mut self, turn: Turn)
        requires whole { self.old.broken ≡ false }
        requires here { machine.step self.old.budget self.old.state ≡ machine.quietly (record self.old.state { end = turn }) }
        requires turn { turn ≡ Turn.More → self.old.state.end ≡ Turn.More }
        ensures { self.new ≡ stepped self.old }
    {
        self.end = turn;
        self.last = None;
    }

    /// A round: the literal of each unit clause goes on the trail.
    fn put_units(&mut self) -> Result<(), AllocError>
        requires whole { self.old.broken ≡ false }
        requires here { IsRound self.old.budget self.old.state }
        ensures ok { OnOk result (self.new ≡ stepped self.old) }
        ensures err { OnErr result (self.new.broken ≡ true) }
        ensures kept { OnErr result (IsSameTask self.old self.new) }
    {
        self.broken = true;
        let level = self.trail.level();
        let entries = moves::units(self.alloc, &self.clauses, &self.learnt, &self.trail, level)?;
        self.spent += put_entries(&mut self.trail, &mut self.signs, &entries)?;
        self.last = None;
        self.broken = false;
        Ok(())
    }

    /// The chosen variable goes on the trail at a new level.
    fn decide(&mut self) -> Result<(), AllocError>
        requires whole { self.old.broken ≡ false }
        requires here { IsChoice self.old.budget self.old.state }
        ensures ok { OnOk result (self.new ≡ stepped self.old) }
        ensures err { OnErr result (self.new.broken ≡ true) }
        ensures kept { OnErr result (IsSameTask self.old self.new) }
    {
        self.broken = true;
        let var = clauses::choose(self.clauses.vars, &self.trail, &self.scores);
        let entry = Step {
            lit: Lit::new(var, self.signs[var as usize - 1]),
            level: self.trail.level() + 1,
            reason: 0,
        };
        assign(&mut self.trail, &mut self.signs, entry)?;
        self.spent += 1;
        self.last = None;
        self.broken = false;
        Ok(())
    }

    /// What the false clause teaches.
    fn lesson(&self, id: u64) -> Result<Learnt, AllocError>
        requires whole { self.now.broken ≡ false }
        requires here { IsConflict self.now.budget self.now.state id }
        ensures { IfOk result (λ learnt. Teaches self.now.budget self.now.state (seen learnt)) }
    {
        learn(
            self.alloc,
            &self.clauses,
            &self.learnt,
            self.trail.steps(),
            self.trail.level(),
            id,
        )
    }

    /// A conflict on the false clause with this id.
    fn learn_from(&mut self, id: u64) -> Result<(), AllocError>
        requires whole { self.old.broken ≡ false }
        requires here { IsConflict self.old.budget self.old.state id }
        ensures ok { OnOk result (self.new ≡ stepped self.old) }
        ensures err { OnErr result (self.new.broken ≡ true) }
        ensures kept { OnErr result (IsSameTask self.old self.new) }
    {
        match self.lesson(id) {
            Ok(learnt) => {
                if learnt.lits.is_empty() {
                    self.refute(learnt);
                    Ok(())
                } else {
                    self.add(learnt)
                }
            }
            Err(error) => {
                self.broken = true;
                Err(error)
            }
        }
    }

    /// The empty clause is learnt.
    fn refute(&mut self, learnt: Learnt)
        requires whole { self.old.broken ≡ false }
        requires here { Teaches self.old.budget self.old.state (seen learnt) }
        requires empty { learnt.lits.items ≡ [] }
        ensures { self.new ≡ stepped self.old }
    {
        self.spent += 1;
        self.conflicts += 1;
        self.end = Turn::Unsat;
        self.last = Some(learnt);
    }

    /// A clause with literals is learnt.
    fn add(&mut self, learnt: Learnt) -> Result<(), AllocError>
        requires whole { self.old.broken ≡ false }
        requires here { Teaches self.old.budget self.old.state (seen learnt) }
        requires some { learnt.lits.items ≢ [] }
        ensures ok { OnOk result (self.new ≡ stepped self.old) }
        ensures err { OnErr result (self.new.broken ≡ true) }
        ensures kept { OnErr result (IsSameTask self.old self.new) }
    {
        self.broken = true;
        self.learnt.push(&learnt.lits)?;
        self.spent += 1;
        self.conflicts += 1;
        self.since += 1;
        self.trail.cut(learnt.back);
        moves::raise(&mut self.scores, &learnt.lits, self.conflicts);
        restart(&mut self.trail, &mut self.since, &mut self.restarts);
        self.last = Some(learnt);
        self.broken = false;
        Ok(())
    }

    /// What the last step learnt; `None` exactly where the last step met no false clause. O(1).
    pub fn last(&self) -> Option<&Learnt>
        ensures { option_map seen (option_copied result) ≡ self.now.last }
    {
        self.last.as_ref()
    }

    /// The steps spent so far: one for each assignment and one for each conflict. O(1).
    pub fn spent(&self) -> u64
        ensures { result ≡ self.now.state.spent }
    {
        self.spent
    }

    /// The value of each variable, from variable 1, once the machine ended with `Sat`; `None` before. They satisfy the
    /// clauses. O(1).
    pub fn values(&self) -> Option<&[bool]>
        ensures before { IfNone result (self.now.broken ≡ false → self.now.state.end ≢ Turn.Sat) }
        ensures solved { OnSome result ((self.now.broken ≡ false) × (self.now.state.end ≡ Turn.Sat)) }
        ensures values { IfSome result (λ values. values.now ≡ self.now.state.signs) }
        ensures size { IfSome result (λ values. length values.now ≡ self.now.vars) }
        ensures satisfied { IfSome result (λ values. satisfies (value_of values.now) self.now.clauses ≡ true) }
    {
        if self.broken {
            return None;
        }
        match self.end {
            Turn::Sat => Some(self.signs.as_slice()),
            _ => None,
        }
    }
}

#[cfg(test)]
mod tests;
