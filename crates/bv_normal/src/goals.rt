//! The normal form of a goal.

ghost use Rattle.std.specs.Prelude.{◌≡◌, ◌↔◌, IfOk, map, All};
ghost use Rattle.bv_expr.specs.Goal.{IsValid};
ghost use Rattle.bv_expr.specs.Sorts.{IsExpr};
ghost use Rattle.bv_normal.specs.Goals.{FalsifiedAlike};
ghost use Rattle.bv_normal.specs.Normal.{normal as normal_form};

use crate::terms::normal;
use bv_expr::{Expr, Goal, Name, Sort};
use sqlite_items::Items;
use std::alloc::{AllocError, Global};

fn name_copied(alloc: Global, name: &Name) -> Result<Name, AllocError>
    ensures { IfOk result (λ n. n ≡ name.now) }
{
    Ok(Name::from_string(name.as_str().to_owned(alloc)?))
}

fn stored_copied(alloc: Global, stored: &Option<Name>) -> Result<Option<Name>, AllocError>
    ensures { IfOk result (λ s. s ≡ stored.now) }
{
    match stored {
        Some(name) => Ok(Some(name_copied(alloc, name)?)),
        None => Ok(None),
    }
}

fn binders_copied(
    alloc: Global,
    binders: &[(Name, Sort)],
) -> Result<Items<(Name, Sort)>, AllocError>
    ensures { IfOk result (λ b. b ≡ binders.now) }
{
    let mut copies = Items::new(alloc);
    for (name, sort) in binders {
        copies.push((name_copied(alloc, name)?, *sort))?;
    }
    Ok(copies)
}

// The normal form of a lent term.
fn normal_of(alloc: Global, term: &Expr) -> Result<Expr, AllocError>
    ensures form { IfOk result (λ e. e ≡ normal_form term.now) }
    ensures expr { IsExpr term.now }
{
    let _depth = term.depth();
    normal(alloc, term.copy(alloc)?)
}

// The normal forms of lent terms.
fn all_normal(alloc: Global, terms: &[Expr]) -> Result<Items<Expr>, AllocError>
    ensures forms { IfOk result (λ ts. ts ≡ map normal_form terms.now) }
    ensures exprs { IfOk result (λ ts. All IsExpr terms.now) }
{
    let mut forms = Items::new(alloc);
    for term in terms {
        forms.push(normal_of(alloc, term)?)?;
    }
    Ok(forms)
}

/// The goal with its hypotheses and its conclusion in normal form, in memory of its own; name, variables and stored
/// certificate are the same.
///
/// The same values falsify both goals, so one is valid exactly where the other is. Takes the time that copying the
/// terms and `normal` take. Answers an error only where memory is wanting.
#[tactic(auto, using(crate::proofs::Goaling::goal_again, crate::proofs::Goaling::falsified_alike, crate::proofs::Goaling::valid_alike))]
pub fn normal_goal(alloc: Global, goal: &Goal) -> Result<Goal, AllocError>
    ensures named { IfOk result (λ g. g.name ≡ goal.now.name) }
    ensures bound { IfOk result (λ g. g.binders ≡ goal.now.binders) }
    ensures certificate { IfOk result (λ g. g.stored ≡ goal.now.stored) }
    ensures hypotheses { IfOk result (λ g. g.hyps ≡ map normal_form goal.now.hyps) }
    ensures conclusion { IfOk result (λ g. g.concl ≡ normal_form goal.now.concl) }
    ensures values { IfOk result (λ g. FalsifiedAlike goal.now.binders goal.now.hyps goal.now.concl g.hyps g.concl) }
    ensures validity { IfOk result (λ g. IsValid g.binders g.hyps g.concl ↔ IsValid goal.now.binders goal.now.hyps goal.now.concl) }
{
    let name = name_copied(alloc, &goal.name)?;
    let binders = binders_copied(alloc, goal.binders.as_slice())?;
    let stored = stored_copied(alloc, &goal.stored)?;
    let hyps = all_normal(alloc, goal.hyps.as_slice())?;
    let concl = normal_of(alloc, &goal.concl)?;
    Ok(Goal::new(name, binders, hyps, concl, stored))
}
