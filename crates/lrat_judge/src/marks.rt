//! Which literals are true: a variable's value is found at once, and a trail of the literals undoes them at a cost of
//! what was assigned, whatever the number of variables.

ghost use Rattle.std.specs.Prelude.{◌≡◌, List, [], ◌∷◌, ◌++◌, length, take, ◌||◌, false, IfOk, OnErr, OnOk};
ghost use Rattle.sat_form.specs.Literals.{Literal, negate, member, same_literal};
ghost use Rattle.sat_form.specs.Assignment.{is_assigned};

use crate::values::Values;
use sat_form::Lit;
use std::alloc::{AllocError, Global};
use std::marker::Model;

/// The literals that are true, in the order in which they were assigned.
#[derive(Drop)]
pub(crate) struct Marks {
    values: Values,
    trail: Vec<Lit>,
}

impl Model for Marks {
    ghost use Rattle.std.specs.Prelude.{List};
    ghost use Rattle.sat_form.specs.Literals.{Literal};
    ghost use Rattle.lrat_judge.specs.Values.{value_in};
    ghost use Rattle.lrat_judge.specs.Marked.{AreTrueAt, IsTrail};

    ghost Value = { List Literal };

    ghost view = { λ m. m.trail.items };

    ghost invariant = { λ m. AreTrueAt (value_in m.values) m.trail.items × IsTrail m.trail.items };
}

impl Marks {
    /// No literal is true; variables up to `vars` have their places in an array. O(vars).
    pub(crate) fn new(alloc: Global, vars: u32) -> Result<Marks, AllocError>
        ensures { IfOk result (λ marks. marks ≡ []) }
    {
        Ok(Marks {
            values: Values::new(alloc, vars)?,
            trail: Vec::new(alloc),
        })
    }

    /// How many literals are true. O(1).
    pub(crate) fn len(&self) -> usize
        ensures { result ≡ length self.now }
    {
        self.trail.len()
    }

    /// Whether a literal is true. One look at its variable's value.
    pub(crate) fn is_true(&self, lit: Lit) -> bool
        ensures { result ≡ member self.now lit }
    {
        self.values.get(lit.var()) == Some(lit.positive())
    }

    /// Whether a literal is false. One look at its variable's value.
    pub(crate) fn is_false(&self, lit: Lit) -> bool
        ensures { result ≡ member self.now (negate lit) }
    {
        self.is_true(lit.not())
    }

    /// Makes an unassigned literal true; after a refusal nothing is changed. Amortised one write of its variable's value.
    pub(crate) fn assign(&mut self, lit: Lit) -> Result<(), AllocError>
        requires { is_assigned self.old lit ≡ false }
        ensures ok { OnOk result (self.new ≡ self.old ++ lit ∷ []) }
        ensures err { OnErr result (self.new ≡ self.old) }
    {
        let before = self.trail.len();
        self.trail.push(lit)?;
        if let Err(refused) = self.values.put(lit.var(), lit.positive()) {
            self.trail.truncate(before);
            return Err(refused);
        }
        Ok(())
    }

    /// Makes a literal false that isn't true. Costs as `assign`.
    pub(crate) fn falsify(&mut self, lit: Lit) -> Result<(), AllocError>
        requires { member self.old lit ≡ false }
        ensures more { OnOk result ((x : Literal) → member self.new x ≡ (same_literal x (negate lit) || member self.old x)) }
        ensures keeps { take (length self.old) self.new ≡ self.old }
    {
        if self.is_false(lit) {
            return Ok(());
        }
        self.assign(lit.not())
    }

    /// Undoes all but the first `count`. One write for each literal that is undone.
    pub(crate) fn undo_to(&mut self, count: usize)
        ensures { self.new ≡ take count self.old }
    {
        while self.trail.len() > count {
            if let Some(lit) = self.trail.pop() {
                self.values.clear(lit.var());
            }
        }
    }
}
