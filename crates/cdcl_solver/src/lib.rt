//! Searches for values that satisfy clauses, in turns of a bounded number of steps, so that many searches can share a
//! thread. A search is the machine of conflict-driven clause learning with the log of what it learnt.
#![tactic(auto)]

ghost use Rattle.std.specs.Prelude.{IfNone, IfOk, IfSome, Ok, OnErr, OnOk, OnSome, false, length, true, ◌^◌, ◌≡◌, ◌≢◌, ◌≤◌};
ghost use Rattle.std.specs.Option.{option_copied, option_map};
ghost use Rattle.sat_form.specs.Truth.{satisfies, value_of};
ghost use Rattle.search_learn.specs.Analysis.{seen};
ghost use Rattle.search_learn.specs.Machine as machine;
ghost use Rattle.lrat_lines.specs.Judge.{Checks};
ghost use Rattle.lrat_trim.specs.Derivation.{IsFinished};
ghost use Rattle.lrat_trim.specs.Trim.{trim};
ghost use Rattle.cdcl_solver.specs.Notes.{MayNote, noted};
ghost use Rattle.cdcl_solver.specs.Progress.{IsSameSearch, log_of, opened, turned};

use lrat_trim::Log;
use sat_form::Cnf;
use search_learn::{Learnt, Turn};
use search_watch::Rounds;
use std::alloc::{AllocError, Global};
use std::marker::Model;

/// A search over the clauses that it was made with, up to a budget of steps.
#[derive(Drop)]
pub struct Search {
    rounds: Rounds,
    log: Log,
    broken: bool,
}

impl Model for Search {
    ghost use Rattle.std.specs.Prelude.{false, length, ◌≡◌};
    ghost use Rattle.cdcl_solver.specs.Kept.{IsRunning};
    ghost use Rattle.cdcl_solver.specs.Notes.{MayNote, noted};
    ghost use Rattle.cdcl_solver.specs.Progress.{Progress};

    ghost Value = { Progress };

    ghost view = { λ s. record {
      vars = s.rounds.vars;
      clauses = s.rounds.clauses;
      budget = s.rounds.budget;
      machine = record { state = s.rounds.state; log = s.log.lines };
      broken = s.broken;
    } };

    ghost invariant = { λ s. (s.log.inputs ≡ length s.rounds.clauses) × (s.broken ≡ false → IsRunning s.rounds s.log) };
}

/// Puts what a step learnt, if it did, into the log.
fn note(log: &mut Log, learnt: Option<&Learnt>) -> Result<(), AllocError>
    requires { MayNote log.old (option_map seen (option_copied learnt)) }
    ensures ok { OnOk result (log.new ≡ noted log.old (option_map seen (option_copied learnt.entry))) }
    ensures err { OnErr result (log.new ≡ log.old) }
{
    match learnt {
        Some(learnt) => {
            log.push(&learnt.lits, &learnt.hints)?;
            Ok(())
        }
        None => Ok(()),
    }
}

impl Search {
    /// A search that begins. The only error is want of memory. O(size of the clauses).
    pub fn new(alloc: Global, cnf: &Cnf, budget: u64) -> Result<Search, AllocError>
        requires { budget ≤ 2 ^ 62 }
        ensures { IfOk result (λ search. search ≡ opened cnf.now.vars cnf.now.clauses budget) }
    {
        Ok(Search {
            rounds: Rounds::new(alloc, cnf, budget)?,
            log: Log::new(alloc, cnf.clauses.len() as u64),
            broken: false,
        })
    }

    /// Up to `most` steps of the machine.
    ///
    /// `More` comes exactly where `most` steps were taken and the machine hasn't ended; `Sat`, `Unsat` and `Budget` are
    /// its ends, which later calls answer again. After a refusal for want of memory every later call is refused
    /// likewise. Takes what so many steps take.
    pub fn turn(&mut self, most: u32) -> Result<Turn, AllocError>
        requires { 1 ≤ most }
        ensures steps { OnOk result (self.new ≡ turned most self.old) }
        ensures end { IfOk result (λ turn. turn ≡ self.new.machine.state.end) }

        // Once refused, it is refused again.
        ensures memory { OnErr result (self.new.broken ≡ true) }
        ensures again { OnOk result (self.old.broken ≡ false) }
        ensures kept { OnErr result (IsSameSearch self.old self.new) }
    {
        if self.broken {
            return Err(AllocError);
        }
        let mut taken = 0;
        while taken < most {
            let end = self.advance()?;
            match end {
                Turn::More => taken += 1,
                _ => return Ok(end),
            }
        }
        Ok(Turn::More)
    }

    /// One step, whose lesson goes into the log.
    fn advance(&mut self) -> Result<Turn, AllocError>
        requires { self.old.broken ≡ false }
        ensures step { OnOk result (self.new ≡ record self.old { machine = machine.advance self.old.budget self.old.machine }) }
        ensures end { IfOk result (λ turn. turn ≡ self.new.machine.state.end) }
        ensures memory { OnErr result (self.new.broken ≡ true) }
        ensures kept { OnErr result (IsSameSearch self.old self.new) }
    {
        self.broken = true;
        let turn = self.rounds.step()?;
        note(&mut self.log, self.rounds.last())?;
        self.broken = false;
        Ok(turn)
    }

    /// The values that satisfy the clauses, from variable 1, after `Sat`; `None` before. O(1).
    pub fn values(&self) -> Option<&[bool]>
        ensures before { IfNone result (self.now.broken ≡ false → self.now.machine.state.end ≢ Turn.Sat) }
        ensures solved { OnSome result ((self.now.broken ≡ false) × (self.now.machine.state.end ≡ Turn.Sat)) }
        ensures values { IfSome result (λ values. values.now ≡ self.now.machine.state.signs) }
        ensures size { IfSome result (λ values. length values.now ≡ self.now.vars) }
        ensures satisfied { IfSome result (λ values. satisfies (value_of values.now) self.now.clauses ≡ true) }
    {
        if self.broken {
            return None;
        }
        self.rounds.values()
    }

    /// What was learnt, in order. After `Unsat` its last line, and no other, is the empty clause, and its trimmed lines
    /// check. O(1).
    pub fn log(&self) -> &Log
        ensures log { result.now ≡ log_of self.now }
        ensures finished { self.now.broken ≡ false → self.now.machine.state.end ≡ Turn.Unsat → IsFinished result.now.lines }
        ensures checks { self.now.broken ≡ false → self.now.machine.state.end ≡ Turn.Unsat → Checks self.now.clauses (trim result.now.inputs result.now.lines) }
    {
        &self.log
    }

    /// The steps spent so far. O(1).
    pub fn spent(&self) -> u64
        ensures { result ≡ self.now.machine.state.spent }
    {
        self.rounds.spent()
    }
}

#[cfg(test)]
mod tests;
