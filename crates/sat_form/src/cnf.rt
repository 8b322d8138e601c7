//! Formulas in conjunctive normal form, whose type keeps that each variable is one of theirs.

ghost use Rattle.std.specs.Prelude.{◌≡◌, IfOk, true};
ghost use Rattle.sat_form.specs.Shape.{is_formula};

use crate::clauses::Clauses;
use crate::truth::is_true;
use std::alloc::{AllocError, Global};

/// A formula in conjunctive normal form, over the variables 1 to `vars`.
///
/// The type keeps that `vars` is below 2^31, that there are fewer than 2^62 clauses, and that each variable of a
/// clause is at most `vars`.
#[derive(Drop)]
pub struct Cnf {
    pub vars: u32,
    pub clauses: Clauses,
    pub ghost in_range: { is_formula vars clauses ≡ true },
}

impl Cnf {
    ghost use Rattle.std.specs.Prelude.{length};
    ghost use Rattle.sat_form.specs.Truth.{satisfies, value_of};

    /// Whether the values satisfy the clauses, where `values[i]` is that of variable i + 1.
    /// O(number of literals and clauses).
    pub fn holds(&self, values: &[bool]) -> bool
        requires { length values.now ≡ self.now.vars }
        ensures { result ≡ satisfies (value_of values.now) self.now.clauses }
    {
        let mut at = 0;
        while let Some(clause) = self.clauses.get(at) {
            if !is_true(clause, values) {
                return false;
            }
            at += 1;
        }
        true
    }

    /// The same formula once more. O(number of literals and clauses).
    pub fn copy(&self, alloc: Global) -> Result<Cnf, AllocError>
        ensures vars { IfOk result (λ cnf. cnf.vars ≡ self.now.vars) }
        ensures clauses { IfOk result (λ cnf. cnf.clauses ≡ self.now.clauses) }
    {
        let clauses = self.clauses.copy(alloc)?;
        Ok(Cnf {
            vars: self.vars,
            clauses,
        })
    }
}
