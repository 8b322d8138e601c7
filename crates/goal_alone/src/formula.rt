//! A goal's clauses. A goal whose circuit is too deep or too large has none, and is told so.
ghost use Rattle.std.specs.Prelude.{◌≡◌, ◌↔◌, ℕ, Bool, true, IfOk, OnOk, IsErrOf};
ghost use Rattle.blast_goal.specs.Falsified.{IsTrueWhereFalsified, IsTrueWhereBitsFalsify};
ghost use Rattle.tseitin.specs.Clauses.{AreConeOf};
ghost use Rattle.goal_alone.specs.Ends.{Made, TooDeep, TooMany};
ghost use Rattle.gate_shape.specs.Builds.{OneEach, Stands};
ghost use Rattle.gate_shape.specs.Listed.{listed};
ghost use Rattle.goal_alone.specs.Formula.{goal_clauses, goal_edge, goal_end, goal_variables};
ghost use Rattle.goal_alone.specs.Satisfying.{IsFalsifiable, IsRefutation, IsSatisfiable};
ghost use Rattle.sat_form.specs.Truth.{satisfies};

use crate::cone::cone_of;
use blast_goal::edge;
use bv_expr::Goal;
use cone_walk::Cone;
use gate_shape::{GateStop, ListBuilder, Lit23};
use sat_form::Cnf;
use std::alloc::{AllocError, Global};
use tseitin::clauses;

/// The most different gates of a goal.
const MOST_GATES: u32 = 4_000_000;

/// The cone of a goal's edge and its clauses.
#[derive(Drop)]
pub struct Formula {
    pub cone: Cone,
    pub cnf: Cnf,
}

/// Why a goal has no clauses.
#[derive(Debug, Drop)]
pub enum FormulaStop {
    /// A gate would have the level 262,144.
    Deep,
    /// There would be more than 4,000,000 different gates.
    Large,
    /// Want of memory.
    Memory(AllocError),
}

impl From<AllocError> for FormulaStop {
    ghost use Rattle.std.specs.Prelude.{◌≡◌};
    ghost use Rattle.goal_alone.specs.declared.formula.FormulaStop.TheVariants.{Memory};

    ghost from_gives = { λ error stop. stop ≡ Memory error };

    fn from(error: AllocError) -> FormulaStop {
        FormulaStop::Memory(error)
    }
}

/// What the answer of a full or too deep list is for a goal.
fn stop_of(stop: GateStop) -> FormulaStop
    ensures deep { (result ≡ FormulaStop.Deep) → (stop ≡ GateStop.Deep) }
    ensures large { (result ≡ FormulaStop.Large) → (stop ≡ GateStop.Full) }
{
    match stop {
        GateStop::Deep => FormulaStop::Deep,
        GateStop::Full => FormulaStop::Large,
        GateStop::Memory(error) => FormulaStop::Memory(error),
    }
}

/// The gates of a goal's normal form and its edge, over a list of their own.
fn circuit(alloc: Global, goal: &Goal) -> Result<(ListBuilder, Lit23), FormulaStop>
    ensures made { OnOk result (goal_end goal.now.hyps goal.now.concl ≡ Made) }
    ensures deep { IsErrOf result FormulaStop.Deep → goal_end goal.now.hyps goal.now.concl ≡ TooDeep }
    ensures large { IsErrOf result FormulaStop.Large → goal_end goal.now.hyps goal.now.concl ≡ TooMany }
    ensures stands { IfOk result (λ r. Stands (listed r.0) r.1 (goal_edge goal.now.hyps goal.now.concl)) }
    ensures once { IfOk result (λ r. OneEach (listed r.0)) }
    ensures of_values { OnOk result (IsTrueWhereFalsified goal.now.binders goal.now.hyps goal.now.concl (goal_edge goal.now.hyps goal.now.concl)) }
    ensures of_bits { OnOk result (IsTrueWhereBitsFalsify goal.now.binders goal.now.hyps goal.now.concl (goal_edge goal.now.hyps goal.now.concl)) }
{
    let mut gates = ListBuilder::new(alloc, MOST_GATES);
    let end = edge(alloc, &mut gates, goal);
    let _kept = gates.len();
    match end {
        Ok(root) => Ok((gates, root)),
        Err(stop) => Err(stop_of(stop)),
    }
}

/// The cone of a goal's edge and its clauses. The edge is that of the goal's normal form, and true exactly for the values
/// that falsify the goal itself. The clauses are satisfiable exactly where there are such values: values that satisfy them
/// give values of the goal's own variables that falsify it, read off the variables of the cone's inputs.
///
/// `Deep` comes exactly where the first gate that can't be made would have the level 262,144, `Large` exactly where it
/// would be the 4,000,001st different one. Both yield to want of memory.
/// Cost: O(n log n) in the goal's gates.
pub fn formula_of(alloc: Global, goal: &Goal) -> Result<Formula, FormulaStop>
    ensures made { OnOk result (goal_end goal.now.hyps goal.now.concl ≡ Made) }
    ensures deep { IsErrOf result FormulaStop.Deep → goal_end goal.now.hyps goal.now.concl ≡ TooDeep }
    ensures large { IsErrOf result FormulaStop.Large → goal_end goal.now.hyps goal.now.concl ≡ TooMany }
    ensures cone { IfOk result (λ f. AreConeOf (goal_edge goal.now.hyps goal.now.concl) f.cone.nodes.items f.cone.root) }
    ensures clauses { IfOk result (λ f. f.cnf.clauses ≡ goal_clauses goal.now.hyps goal.now.concl) }
    ensures vars { IfOk result (λ f. f.cnf.vars ≡ goal_variables goal.now.hyps goal.now.concl) }
    ensures satisfiable { IfOk result (λ f. IsSatisfiable f.cnf.clauses ↔ IsFalsifiable goal.now.binders goal.now.hyps goal.now.concl) }
    ensures falsified { IfOk result (λ f. (values : ℕ → Bool) → satisfies values f.cnf.clauses ≡ true → IsRefutation goal.now.binders goal.now.hyps goal.now.concl (goal_edge goal.now.hyps goal.now.concl) values) }
{
    let (gates, root) = circuit(alloc, goal)?;
    let cone = cone_of(alloc, &gates, root)?;
    let cnf = clauses(alloc, &cone)?;
    Ok(Formula { cone, cnf })
}
