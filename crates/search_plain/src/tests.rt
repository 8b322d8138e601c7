//! That the machine by watched literals goes as the plain one does.

ghost use Rattle.std.specs.Prelude.{◌<◌, ◌^◌, ◌≡◌, true};
ghost use Rattle.sat_form.specs.Shape.{are_within, variables_within};

use crate::Plain;
use sat_form::{Clauses, Cnf, Lit};
use search_learn::{Learnt, Turn};
use search_watch::Rounds;
use std::alloc::{AllocError, Global};
use std::test::Fail;

/// Clauses over the variables 1 to `vars` that are made: those so far, and the open one.
#[derive(Drop)]
struct Draft {
    vars: u32,
    open: Vec<Lit>,
    clauses: Clauses,
    ghost small: { vars < 2 ^ 31 },
    ghost within: { are_within vars open.items ≡ true },
    ghost closed: { variables_within vars clauses ≡ true },
}

/// No clause.
fn empty(alloc: Global, vars: u32) -> Draft
    requires { vars < 2 ^ 31 }
{
    Draft {
        vars,
        open: Vec::new(alloc),
        clauses: Clauses::new(alloc),
    }
}

impl Draft {
    /// A literal of the open clause, where its variable is one of them.
    fn literal(&mut self, var: u32, positive: bool) -> Result<(), AllocError>
        requires { 0 < var }
    {
        if var <= self.vars {
            self.open.push(Lit::new(var, positive))?;
        }
        Ok(())
    }

    fn close(&mut self) -> Result<(), AllocError> {
        self.clauses.push(&self.open)?;
        self.open.clear();
        Ok(())
    }

    /// A literal of the open clause as DIMACS writes it, or the 0 behind the clause.
    fn take(&mut self, number: i32) -> Result<(), AllocError> {
        if number == 0 {
            self.close()
        } else {
            self.literal(number.unsigned_abs(), number > 0)
        }
    }

    /// A pigeon is in one of five holes.
    fn is_housed(&mut self, pigeon: u32) -> Result<(), AllocError>
        requires { pigeon < 6 }
    {
        for hole in 1..6 {
            self.literal(5 * pigeon + hole, true)?;
        }
        self.close()
    }

    /// Two pigeons aren't in one hole.
    fn are_apart(&mut self, one: u32, other: u32) -> Result<(), AllocError>
        requires one { one < 6 }
        requires other { other < 6 }
    {
        for hole in 1..6 {
            self.literal(5 * one + hole, false)?;
            self.literal(5 * other + hole, false)?;
            self.close()?;
        }
        Ok(())
    }
}

/// Six pigeons are in five holes.
fn pigeons(alloc: Global) -> Result<Draft, AllocError> {
    let mut draft = empty(alloc, 30);
    for pigeon in 0..6 {
        draft.is_housed(pigeon)?;
        for other in 0..pigeon {
            draft.are_apart(other, pigeon)?;
        }
    }
    Ok(draft)
}

/// The clauses that say that `(a && (b && c)) = ((a && b) && c)` is false, each ended by 0.
const ASSOCIATIVITY: [i32; 74] = [
    1, 0, -5, 3, 0, -5, 4, 0, 5, -3, -4, 0, -6, 2, 0, -6, 5, 0, 6, -2, -5, 0, -7, 2, 0, -7, 3, 0,
    7, -2, -3, 0, -8, 4, 0, -8, 7, 0, 8, -4, -7, 0, -9, 6, 0, -9, 8, 0, 9, -6, -8, 0, -10, -6, 0,
    -10, -8, 0, 10, 6, 8, 0, -11, -9, 0, -11, -10, 0, 11, 9, 10, 0, 11, 0,
];

/// The clauses of that goal.
fn associativity(alloc: Global) -> Result<Draft, AllocError> {
    let mut draft = empty(alloc, 11);
    for number in &ASSOCIATIVITY {
        draft.take(*number)?;
    }
    Ok(draft)
}

/// The formula of the clauses, which are few enough.
fn formula(draft: Draft) -> Option<Cnf> {
    let Draft { vars, clauses, .. } = draft;
    if clauses.len() >= 1 << 62 {
        return None;
    }
    Some(Cnf { vars, clauses })
}

fn is_same(one: &Learnt, other: &Learnt) -> bool {
    one.lits.as_slice() == other.lits.as_slice()
        && one.hints.as_slice() == other.hints.as_slice()
        && one.back == other.back
}

fn are_same(one: Option<&Learnt>, other: Option<&Learnt>) -> bool {
    match one {
        Some(one) => match other {
            Some(other) => is_same(one, other),
            None => false,
        },
        None => other.is_none(),
    }
}

/// A step of both machines; whether both came to the same and learnt the same.
fn step_both(plain: &mut Plain, rounds: &mut Rounds) -> Result<bool, AllocError> {
    let turn = plain.step()?;
    let other = rounds.step()?;
    Ok(turn == other && plain.spent() == rounds.spent() && are_same(plain.last(), rounds.last()))
}

/// Whether so many steps of both came to the same.
fn go_alike(plain: &mut Plain, rounds: &mut Rounds, count: u32) -> Result<bool, AllocError> {
    for _ in 0..count {
        if !step_both(plain, rounds)? {
            return Ok(false);
        }
    }
    Ok(true)
}

/// What both came to, and what is spent, where 2,000 steps of both came to the same; more steps than both take.
fn end_alike(
    alloc: Global,
    cnf: &Cnf,
    plain: &mut Plain,
) -> Result<Option<(Turn, u64)>, AllocError> {
    let mut rounds = Rounds::new(alloc, cnf, 1 << 20)?;
    if go_alike(plain, &mut rounds, 2000)? {
        Ok(Some((rounds.step()?, rounds.spent())))
    } else {
        Ok(None)
    }
}

fn end_of(alloc: Global, draft: Draft) -> Result<Option<(Turn, u64)>, AllocError> {
    match formula(draft) {
        Some(cnf) => {
            let mut plain = Plain::new(alloc, &cnf, 1 << 20)?;
            end_alike(alloc, &cnf, &mut plain)
        }
        None => Ok(None),
    }
}

/// There is a restart among the steps, behind 64 conflicts. What is spent is also what a C form of the machine spends.
#[test]
fn both_machines_go_alike(rt: HostRuntime) -> Result<(), Fail> {
    let end = end_of(rt.alloc(), pigeons(rt.alloc())?)?;
    assert_eq!(rt; end, Some((Turn::Unsat, 1365)));
    Ok(())
}

/// The clauses are those of a goal, with gates and a few conflicts.
#[test]
fn both_machines_go_alike_on_a_goal(rt: HostRuntime) -> Result<(), Fail> {
    let end = end_of(rt.alloc(), associativity(rt.alloc())?)?;
    assert_eq!(rt; end, Some((Turn::Unsat, 28)));
    Ok(())
}
