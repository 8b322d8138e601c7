//! The values of variables: in an array for the variables of the formula, which nearly all lines name alone, and in a
//! map for those above, so that a line costs no memory by the number of a variable that it names.

ghost use Rattle.std.specs.Prelude.{◌≡◌, ℕ, None, Some, IfOk, OnErr, OnOk};
ghost use Rattle.lrat_judge.specs.Values.{value_in, Gets};

use std::alloc::{AllocError, Global};
use std::collections::BTreeMap;

/// A value for each variable that has one.
#[derive(Drop)]
pub(crate) struct Values {
    low: Vec<Option<bool>>,
    high: BTreeMap<u32, bool>,
}

impl Values {
    /// No variable has a value; the array is for the variables up to `vars`. O(vars).
    pub(crate) fn new(alloc: Global, vars: u32) -> Result<Values, AllocError>
        ensures { IfOk result (λ values. (var : ℕ) → value_in values var ≡ None) }
    {
        let mut low = Vec::new(alloc);
        low.resize(vars as usize + 1, None)?;
        Ok(Values {
            low,
            high: BTreeMap::new(alloc),
        })
    }

    /// The value of a variable. O(1), and above the formula's variables O(log of how many of those have a value).
    pub(crate) fn get(&self, var: u32) -> Option<bool>
        ensures { result ≡ value_in self.now var }
    {
        if (var as usize) < self.low.len() {
            self.low[var as usize]
        } else {
            self.high.get(&var).copied()
        }
    }

    /// Gives a variable a value. Costs as `get`.
    pub(crate) fn put(&mut self, var: u32, value: bool) -> Result<(), AllocError>
        ensures ok { OnOk result (Gets (value_in self.old) (value_in self.new) var (Some value)) }
        ensures err { OnErr result ((k : ℕ) → value_in self.new k ≡ value_in self.old k) }
    {
        if (var as usize) < self.low.len() {
            self.low[var as usize] = Some(value);
            return Ok(());
        }
        match self.high.insert(var, value) {
            Ok(_) => Ok(()),
            Err(failed) => Err(AllocError::from(failed)),
        }
    }

    /// Takes a variable's value away. Costs as `get`.
    pub(crate) fn clear(&mut self, var: u32)
        ensures { Gets (value_in self.old) (value_in self.new) var None }
    {
        if (var as usize) < self.low.len() {
            self.low[var as usize] = None;
        } else {
            self.high.remove(&var);
        }
    }
}
