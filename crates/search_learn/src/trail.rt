//! The trail with the value and the level of each variable, so that a literal is read without a search.

ghost use Rattle.std.specs.Prelude.{◌++◌, ◌-◌, ◌<◌, ◌∷◌, ◌≡◌, ◌≤◌, IfNone, IfOk, IfSome, OnErr, OnOk, List, Some, [], false, get_or, length, true};
ghost use Rattle.sat_form.specs.Assignment as assignment;
ghost use Rattle.search_learn.specs.Trail as trails;
ghost use Rattle.search_learn.specs.Values.{AreLevels, AreValues, IsOfMachine};

use crate::Step;
use sat_form::Lit;
use std::alloc::{AllocError, Global};
use std::marker::Model;

/// The trail of a search over the variables 1 to a number: its entries, the oldest first.
///
/// It keeps the value and the level of each variable beside them.
#[derive(Drop)]
pub struct Trail {
    steps: Vec<Step>,
    values: Vec<Option<bool>>,
    levels: Vec<u32>,
}

impl Model for Trail {
    ghost use Rattle.std.specs.Prelude.{length};
    ghost use Rattle.search_learn.specs.Values.{AreKept, Entries};

    ghost Value = { Entries };

    ghost view = { λ t. record { vars = length t.values.items; steps = t.steps.items } };

    ghost invariant = { λ t. AreKept (length t.values.items) t.values.items t.levels.items t.steps.items };
}

impl Trail {
    /// No entry, over the variables 1 to `vars`. O(vars). The only error is want of memory.
    pub fn new(alloc: Global, vars: u32) -> Result<Trail, AllocError>
        ensures { IfOk result (λ trail. trail ≡ record { vars = vars; steps = [] }) }
    {
        Ok(Trail {
            steps: Vec::new(alloc),
            values: vec![in alloc; None; vars as usize]?,
            levels: vec![in alloc; 0; vars as usize]?,
        })
    }

    /// Its entries. O(1).
    pub fn steps(&self) -> &[Step]
        ensures { result.now ≡ self.now.steps }
    {
        &self.steps
    }

    /// The value of each variable, from variable 1; `None` where it is unassigned. O(1).
    pub fn values(&self) -> &[Option<bool>]
        ensures { AreValues self.now.vars result.now self.now.steps }
    {
        &self.values
    }

    /// The level of each variable, from variable 1, where it is assigned; an unassigned one may have any. O(1).
    pub fn levels(&self) -> &[u32]
        ensures { AreLevels self.now.vars result.now self.now.steps }
    {
        &self.levels
    }

    /// Whether a literal is true. O(1).
    #[inline(always)]
    pub fn is_true(&self, lit: Lit) -> bool
        ensures { result ≡ trails.is_true self.now.steps lit }
    {
        let place = lit.var() as usize - 1;
        if place >= self.values.len() {
            return false;
        }
        match self.values[place] {
            Some(value) => value == lit.positive(),
            None => false,
        }
    }

    /// Whether a literal is false. O(1).
    #[inline(always)]
    pub fn is_false(&self, lit: Lit) -> bool
        ensures { result ≡ assignment.is_false (trails.assigned self.now.steps) lit }
    {
        self.is_true(lit.not())
    }

    /// Whether a literal is true or false. O(1).
    #[inline(always)]
    pub fn is_assigned(&self, lit: Lit) -> bool
        ensures { result ≡ trails.is_assigned self.now.steps lit }
    {
        self.is_true(lit) || self.is_false(lit)
    }

    /// The current level: that of the last entry, 0 where there is none. O(1).
    pub fn level(&self) -> u32
        requires { IsOfMachine self.now.vars self.now.steps }
        ensures level { result ≡ trails.level self.now.steps }
        ensures range { result ≤ self.now.vars }
    {
        if self.steps.is_empty() {
            0
        } else {
            self.steps[self.steps.len() - 1].level
        }
    }

    /// Puts an entry behind the others; its variable is unassigned. After a refusal the trail is unchanged.
    /// O(1), amortised.
    #[inline(always)]
    pub fn push(&mut self, step: Step) -> Result<(), AllocError>
        requires free { trails.is_assigned self.old.steps step.lit ≡ false }
        requires within { step.lit.var ≤ self.old.vars }
        ensures ok { OnOk result (self.new ≡ record self.old { steps = self.old.steps ++ step ∷ [] }) }
        ensures err { OnErr result (self.new ≡ self.old) }
    {
        let lit = step.lit;
        let level = step.level;
        let place = lit.var() as usize - 1;
        self.steps.push(step)?;
        self.values[place] = Some(lit.positive());
        self.levels[place] = level;
        Ok(())
    }

    /// Takes the last entry off, if it is above a level. O(1).
    #[inline(always)]
    pub fn pop_above(&mut self, level: u32) -> Option<Step>
        requires { IsOfMachine self.old.vars self.old.steps }
        ensures some { IfSome result (λ step. (self.old.steps ≡ self.new.steps ++ step ∷ []) × (level < step.level)) }
        ensures none { IfNone result ((self.new.steps ≡ self.old.steps) × (trails.level self.old.steps ≤ level)) }
        ensures vars { self.new.vars ≡ self.old.vars }
        ensures machine { IsOfMachine self.new.vars self.new.steps }
        ensures cut { trails.cut level self.new.steps ≡ trails.cut level self.old.steps }
    {
        if self.steps.is_empty() {
            return None;
        }
        let rest = self.steps.len() - 1;
        let last = self.steps[rest];
        if last.level <= level {
            return None;
        }
        self.values[last.lit.var() as usize - 1] = None;
        self.steps.truncate(rest);
        Some(last)
    }

    /// Cuts it to a level. O(number of entries that go).
    pub fn cut(&mut self, to: u32)
        requires { IsOfMachine self.old.vars self.old.steps }
        ensures { self.new ≡ record self.old { steps = trails.cut to self.old.steps } }
    {
        while let Some(_) = self.pop_above(to) {}
    }
}
