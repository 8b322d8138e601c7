//! The search machine of conflict-driven clause learning by watched literals: a clause is looked at only where one of
//! the two literals that it is watched at became false, and the choice of a decision is at hand in a heap. Step for step
//! it is the machine's definition.
#![tactic(auto)]

ghost use Rattle.std.specs.Prelude.{◌≡◌, ◌≢◌, ◌≤◌, ◌^◌, [], false, true, IfNone, IfOk, IfSome, OnErr, OnOk, OnSome, length, replicate};
ghost use Rattle.std.specs.Option.{option_copied, option_map};
ghost use Rattle.sat_form.specs.Shape.{is_formula};
ghost use Rattle.sat_form.specs.Truth.{satisfies, value_of};
ghost use Rattle.search_learn.specs.Analysis.{seen};
ghost use Rattle.search_learn.specs.Cases.{IsConflict, IsRound, Teaches};
ghost use Rattle.search_learn.specs.Engine.{IsSameTask, begun, stepped};
ghost use Rattle.search_learn.specs.Machine as machine;
ghost use Rattle.search_heap.specs.Ranking.{all_of};
ghost use Rattle.search_watch.specs.Nets.{IsNet, net};
ghost use Rattle.search_watch.specs.Cases.{IsCase, IsQuiet, IsUnbroken};

mod learnt;
mod moves;
mod units;
mod value;
mod walk;
mod watch;
mod watches;

use sat_form::Cnf;
use search_heap::Heap;
use search_learn::{Learner, Learnt, Trail, Turn};
use std::alloc::{AllocError, Global};
use std::marker::Model;
use watches::Watches;

/// A run of the search machine over the clauses that it was made with, up to a budget of steps.
///
/// It keeps its clauses, its budget, the machine's state, and what the last step learnt.
#[derive(Drop)]
pub struct Rounds {
    alloc: Global,
    vars: u32,
    /// How many clauses were given; the learnt ones stand behind them.
    inputs: usize,
    watches: Watches,
    learner: Learner,
    heap: Heap,
    trail: Trail,
    signs: Vec<bool>,
    budget: u64,
    spent: u64,
    conflicts: u64,
    restarts: u64,
    since: u64,
    end: Turn,
    last: Option<Learnt>,
    broken: bool,
}

/// Which case the next step is: the machine has ended, ends by its budget, meets a false clause, has unit clauses, or
/// has neither.
enum Case {
    Ended,
    Spent,
    Conflict(u64),
    Units,
    Quiet,
}

impl Model for Rounds {
    ghost use Rattle.std.specs.Prelude.{List, false, take, ◌≡◌};
    ghost use Rattle.std.specs.Option.{option_map};
    ghost use Rattle.search_learn.specs.Analysis.{seen};
    ghost use Rattle.search_learn.specs.Machine.{numbered};
    ghost use Rattle.search_learn.specs.Engine.{Engine};
    ghost use Rattle.search_watch.specs.Kept.{Follows};
    ghost use Rattle.search_watch.specs.Nets.{net};

    ghost Value = { Engine };

    ghost view = { λ p. record {
      vars = p.vars;
      clauses = take p.inputs p.watches.clauses;
      budget = p.budget;
      state = record {
        vars = p.vars;
        inputs = p.inputs;
        clauses = numbered 1 p.watches.clauses;
        trail = p.trail.steps;
        scores = p.heap.scores;
        signs = p.signs.items;
        spent = p.spent;
        conflicts = p.conflicts;
        restarts = p.restarts;
        since = p.since;
        end = p.end;
      };
      last = option_map seen p.last;
      broken = p.broken;
    } };

    ghost invariant = { λ p. p.broken ≡ false → Follows (take p.inputs p.watches.clauses) p.budget p.trail.vars p.learner (net p.watches) p.heap (record {
      vars = p.vars;
      inputs = p.inputs;
      clauses = numbered 1 p.watches.clauses;
      trail = p.trail.steps;
      scores = p.heap.scores;
      signs = p.signs.items;
      spent = p.spent;
      conflicts = p.conflicts;
      restarts = p.restarts;
      since = p.since;
      end = p.end;
    }) };
}

impl Rounds {
    /// The machine at its start. The only error is want of memory. O(size of the clauses).
    pub fn new(alloc: Global, cnf: &Cnf, budget: u64) -> Result<Rounds, AllocError>
        requires { budget ≤ 2 ^ 62 }
        ensures { IfOk result (λ r. r ≡ begun cnf.now.vars cnf.now.clauses budget) }
    {
        let trail = Trail::new(alloc, cnf.vars)?;
        let watches = Watches::of(alloc, &trail, cnf)?;
        let learner = Learner::new(alloc, cnf.vars)?;
        let heap = Heap::new(alloc, cnf.vars)?;
        let signs = vec![in alloc; false; cnf.vars as usize]?;
        let inputs = cnf.clauses.len();
        Ok(Rounds::begin(
            alloc, cnf.vars, inputs, watches, learner, heap, trail, signs, budget,
        ))
    }

    /// The machine at its start, of its parts.
    fn begin(
        alloc: Global,
        vars: u32,
        inputs: usize,
        watches: Watches,
        learner: Learner,
        heap: Heap,
        trail: Trail,
        signs: Vec<bool>,
        budget: u64,
    ) -> Rounds
        requires limit { budget ≤ 2 ^ 62 }
        requires given { inputs ≡ length watches.clauses }
        requires formula { is_formula vars watches.clauses ≡ true }
        requires net { IsNet vars [] [] (net watches) }
        requires learner { learner ≡ vars }
        requires heap { heap ≡ all_of vars }
        requires trail { trail ≡ record { vars = vars; steps = [] } }
        requires signs { signs.items ≡ replicate vars false }
        ensures { result ≡ begun vars watches.clauses budget }
    {
        Rounds {
            alloc,
            vars,
            inputs,
            watches,
            learner,
            heap,
            trail,
            signs,
            budget,
            spent: 0,
            conflicts: 0,
            restarts: 0,
            since: 0,
            end: Turn::More,
            last: None,
            broken: false,
        }
    }

    /// One step of the machine.
    ///
    /// `More` comes exactly where the machine hasn't ended behind it; an end is answered again by later steps. After a
    /// refusal for want of memory every later step is refused likewise. A round and a decision take time by the watches
    /// of what they assign; a conflict what `learn` takes, and time by what is cut from the trail.
    pub fn step(&mut self) -> Result<Turn, AllocError>
        ensures step { OnOk result (self.new ≡ stepped self.old) }
        ensures turn { IfOk result (λ turn. turn ≡ self.new.state.end) }

        // Once refused, it is refused again.
        ensures memory { OnErr result (self.new.broken ≡ true) }
        ensures again { OnOk result (self.old.broken ≡ false) }
        ensures kept { OnErr result (IsSameTask self.old self.new) }
    {
        if self.broken {
            return Err(AllocError);
        }
        match self.next_case() {
            Case::Ended => self.stop(self.end),
            Case::Spent => self.stop(Turn::Budget(self.spent)),
            Case::Conflict(id) => self.learn_from(id)?,
            Case::Units => self.put_units()?,
            Case::Quiet => self.decide()?,
        }
        Ok(self.end)
    }

    /// Which case the next step is.
    fn next_case(&self) -> Case
        requires { self.now.broken ≡ false }
        ensures { IsCase self.now.budget self.now.state result }
    {
        match self.end {
            Turn::More => self.case_before_end(),
            _ => Case::Ended,
        }
    }

    /// The same before the end.
    fn case_before_end(&self) -> Case
        requires whole { self.now.broken ≡ false }
        requires going { self.now.state.end ≡ Turn.More }
        ensures { IsCase self.now.budget self.now.state result }
    {
        let spent = self.spent >= self.budget;
        match self.watches.found.false_clause {
            Some(place) => {
                return if spent {
                    Case::Spent
                } else {
                    Case::Conflict(place as u64 + 1)
                };
            }
            None => {}
        }
        if self.watches.found.units.is_empty() {
            return Case::Quiet;
        }
        if spent { Case::Spent } else { Case::Units }
    }

    /// A step that only ends the machine.
    fn stop(&mut self, turn: Turn)
        requires whole { self.old.broken ≡ false }
        requires here { machine.step self.old.budget self.old.state ≡ machine.quietly (record self.old.state { end = turn }) }
        requires turn { turn ≡ Turn.More → self.old.state.end ≡ Turn.More }
        ensures { self.new ≡ stepped self.old }
    {
        self.end = turn;
        self.last = None;
    }

    /// A round: the literal of each unit clause goes on the trail.
    fn put_units(&mut self) -> Result<(), AllocError>
        requires whole { self.old.broken ≡ false }
        requires here { IsRound self.old.budget self.old.state }
        requires unbroken { IsUnbroken self.old.state }
        ensures ok { OnOk result (self.new ≡ stepped self.old) }
        ensures err { OnErr result (self.new.broken ≡ true) }
        ensures kept { OnErr result (IsSameTask self.old self.new) }
    {
        self.broken = true;
        let level = self.trail.level();
        self.spent += self.watches.round(&mut self.trail, &mut self.signs, level)?;
        self.last = None;
        self.broken = false;
        Ok(())
    }

    /// A step where no clause is false and none is unit: all variables are assigned, the budget is used up, or the
    /// chosen variable goes on the trail at a new level.
    fn decide(&mut self) -> Result<(), AllocError>
        requires whole { self.old.broken ≡ false }
        requires here { IsQuiet self.old.state }
        ensures ok { OnOk result (self.new ≡ stepped self.old) }
        ensures err { OnErr result (self.new.broken ≡ true) }
        ensures kept { OnErr result (IsSameTask self.old self.new) }
    {
        self.broken = true;
        self.last = None;
        if let Some(var) = moves::choose(&mut self.heap, &self.trail) {
            if self.spent < self.budget {
                self.watches.decide(&mut self.trail, &mut self.signs, var)?;
                self.spent += 1;
                self.broken = false;
                return Ok(());
            }
            self.end = Turn::Budget(self.spent);
            self.broken = false;
            return Ok(());
        }
        self.end = Turn::Sat;
        self.broken = false;
        Ok(())
    }

    /// What the false clause teaches.
    fn lesson(&mut self, id: u64) -> Result<Learnt, AllocError>
        requires whole { self.old.broken ≡ false }
        requires here { IsConflict self.old.budget self.old.state id }
        ensures lesson { IfOk result (λ learnt. Teaches self.old.budget self.old.state (seen learnt)) }
        ensures same { self.new ≡ self.old }
    {
        self.learner
            .learn(self.alloc, &self.watches.clauses, &self.trail, id)
    }

    /// A conflict on the false clause with this id.
    fn learn_from(&mut self, id: u64) -> Result<(), AllocError>
        requires whole { self.old.broken ≡ false }
        requires here { IsConflict self.old.budget self.old.state id }
        ensures ok { OnOk result (self.new ≡ stepped self.old) }
        ensures err { OnErr result (self.new.broken ≡ true) }
        ensures kept { OnErr result (IsSameTask self.old self.new) }
    {
        match self.lesson(id) {
            Ok(learnt) => {
                if learnt.lits.is_empty() {
                    self.refute(learnt);
                    Ok(())
                } else {
                    self.add(learnt)
                }
            }
            Err(error) => {
                self.broken = true;
                Err(error)
            }
        }
    }

    /// The empty clause is learnt.
    fn refute(&mut self, learnt: Learnt)
        requires whole { self.old.broken ≡ false }
        requires here { Teaches self.old.budget self.old.state (seen learnt) }
        requires empty { learnt.lits.items ≡ [] }
        ensures { self.new ≡ stepped self.old }
    {
        self.spent += 1;
        self.conflicts += 1;
        self.end = Turn::Unsat;
        self.last = Some(learnt);
    }

    /// A clause with literals is learnt.
    fn add(&mut self, learnt: Learnt) -> Result<(), AllocError>
        requires whole { self.old.broken ≡ false }
        requires here { Teaches self.old.budget self.old.state (seen learnt) }
        requires some { learnt.lits.items ≢ [] }
        ensures ok { OnOk result (self.new ≡ stepped self.old) }
        ensures err { OnErr result (self.new.broken ≡ true) }
        ensures kept { OnErr result (IsSameTask self.old self.new) }
    {
        self.broken = true;
        self.spent += 1;
        self.conflicts += 1;
        self.since += 1;
        moves::cut(&mut self.trail, &mut self.heap, learnt.back);
        moves::raise(&mut self.heap, &learnt.lits, self.conflicts);
        moves::restart(
            &mut self.trail,
            &mut self.heap,
            &mut self.since,
            &mut self.restarts,
        );
        self.watches.forget();
        self.watches.add(&self.trail, &learnt.lits)?;
        self.last = Some(learnt);
        self.broken = false;
        Ok(())
    }

    /// What the last step learnt; `None` exactly where the last step met no false clause. O(1).
    pub fn last(&self) -> Option<&Learnt>
        ensures { option_map seen (option_copied result) ≡ self.now.last }
    {
        self.last.as_ref()
    }

    /// The steps spent so far: one for each assignment and one for each conflict. O(1).
    pub fn spent(&self) -> u64
        ensures { result ≡ self.now.state.spent }
    {
        self.spent
    }

    /// The value of each variable, from variable 1, once the machine ended with `Sat`; `None` before. They satisfy the
    /// clauses. O(1).
    pub fn values(&self) -> Option<&[bool]>
        ensures before { IfNone result (self.now.broken ≡ false → self.now.state.end ≢ Turn.Sat) }
        ensures solved { OnSome result ((self.now.broken ≡ false) × (self.now.state.end ≡ Turn.Sat)) }
        ensures values { IfSome result (λ values. values.now ≡ self.now.state.signs) }
        ensures size { IfSome result (λ values. length values.now ≡ self.now.vars) }
        ensures satisfied { IfSome result (λ values. satisfies (value_of values.now) self.now.clauses ≡ true) }
    {
        if self.broken {
            return None;
        }
        match self.end {
            Turn::Sat => Some(self.signs.as_slice()),
            _ => None,
        }
    }
}
