//! A goal is what a theorem states: its type keeps that its terms are truths over its variables, so that each call
//! above takes any goal.

ghost use Rattle.std.specs.Prelude.{◌≡◌, ◌↔◌, [], All, IsTrue};
ghost use Rattle.bv_expr.specs.Goal.{IsGoal, IsTruthAt, MeansTrue};
ghost use Rattle.bv_expr.specs.Meaning.{meaning};

use crate::expr::Expr;
use crate::meaning::{eval, is_true};
use crate::ops::{Sort, Val};
use sqlite_items::Items;
use std::marker::Model;

/// A text that contracts see as its bytes.
#[derive(Debug, Drop)]
pub struct Name {
    text: String,
}

impl Model for Name {
    ghost use Rattle.std.specs.Prelude.{List, ℕ, string_bytes};

    ghost Value = { List ℕ };

    ghost view = { λ n. string_bytes n.text };
}

impl Name {
    ghost use Rattle.std.specs.Prelude.{string_bytes};

    /// The name of this text. Takes constant time.
    pub fn from_string(text: String) -> Name
        ensures { result ≡ string_bytes text }
    {
        Name { text }
    }

    /// The text.
    pub fn as_str(&self) -> &str
        ensures { result.now ≡ self.now }
    {
        self.text.as_str()
    }

    /// The text, handed back. Takes constant time.
    pub fn into_string(self) -> String
        ensures { string_bytes result ≡ self }
    {
        self.text
    }
}

/// A goal: variables with sorts, hypotheses and a conclusion. It is valid where no values of the variables make all
/// hypotheses true and the conclusion false.
///
/// Its type keeps that at most 64 variables are bound, with different names and widths of 1 to 128, and that all terms
/// are truths over them: variable k is the k-th binder. An example's name is `example`. `stored` is the file of a
/// certificate that the goal names.
#[derive(Drop)]
pub struct Goal {
    pub name: Name,
    pub binders: Items<(Name, Sort)>,
    pub hyps: Items<Expr>,
    pub concl: Expr,
    pub stored: Option<Name>,
    ghost fits: { IsGoal binders hyps concl },
}

// Whether a truth means true at these values.
#[tactic(auto, using(crate::proofs::Over::means_truth))]
fn means_true(truth: &Expr, values: &[Val]) -> bool
    requires { IsTruthAt values.now truth.now }
    ensures { meaning truth.now values.now ≡ Val.Truth result }
{
    is_true(eval(truth, values))
}

// Whether all truths mean true at these values.
fn all_mean_true(truths: &[Expr], values: &[Val]) -> bool
    requires { All (IsTruthAt values.now) truths.now }
    ensures { IsTrue result ↔ All (MeansTrue values.now) truths.now }
{
    for truth in truths {
        if !means_true(truth, values) {
            return false;
        }
    }
    true
}

impl Goal {
    ghost use Rattle.bv_expr.specs.Goal.{AreValues, Falsifies, IsValid};

    /// The goal of these parts. Takes constant time.
    pub fn new(
        name: Name,
        binders: Items<(Name, Sort)>,
        hyps: Items<Expr>,
        concl: Expr,
        stored: Option<Name>,
    ) -> Goal
        requires { IsGoal binders hyps concl }
        ensures named { result.name ≡ name }
        ensures bound { result.binders ≡ binders }
        ensures hypotheses { result.hyps ≡ hyps }
        ensures conclusion { result.concl ≡ concl }
        ensures certificate { result.stored ≡ stored }
    {
        Goal {
            name,
            binders,
            hyps,
            concl,
            stored,
        }
    }

    /// Whether these values, one for each variable in order, make all hypotheses true and the conclusion false.
    /// Takes time by the number of nodes.
    #[tactic(auto, using(crate::proofs::Over::truth_at))]
    pub fn is_falsified_by(&self, values: &[Val]) -> bool
        requires { AreValues self.now.binders values.now }
        ensures { IsTrue result ↔ Falsifies self.now.hyps self.now.concl values.now }
    {
        all_mean_true(self.hyps.as_slice(), values) && !means_true(&self.concl, values)
    }

    /// Whether a goal without variables is valid: there are no values but the empty list, and it doesn't falsify.
    /// Takes time by the number of nodes.
    #[tactic(auto, using(crate::proofs::Over::closed_valid, crate::proofs::Over::empty_fits))]
    pub fn closed_is_valid(&self) -> bool
        requires { self.now.binders ≡ [] }
        ensures { IsTrue result ↔ IsValid self.now.binders self.now.hyps self.now.concl }
    {
        !self.is_falsified_by(&[])
    }
}
