//! Which goals are propositional: their circuits need no bits of vectors.

ghost use Rattle.std.specs.Prelude.{◌≡◌, ◌↔◌, All, IsTrue};
ghost use Rattle.bv_expr.specs.Propositional.{is_not, is_connective, is_propositional};

use crate::expr::Expr;
use crate::goal::Goal;
use crate::ops::{Binary, Unary};
use crate::shape::{Shape, shape_of};

#[tactic(auto, unfolding(crate::specs::Propositional::is_not))]
fn is_not(op: Unary) -> bool
    ensures { result ≡ is_not op }
{
    match op {
        Unary::TNot => true,
        _ => false,
    }
}

#[tactic(auto, unfolding(crate::specs::Propositional::is_connective))]
fn is_connective(op: Binary) -> bool
    ensures { result ≡ is_connective op }
{
    match op {
        Binary::TAnd | Binary::TOr | Binary::TXor | Binary::TEq => true,
        _ => false,
    }
}

// Whether all nodes of the term are propositional.
#[tactic(auto, unfolding(crate::specs::Propositional::is_propositional))]
fn is_propositional(term: &Expr) -> bool
    ensures { result ≡ is_propositional term.now }
{
    match shape_of(term.node()) {
        Shape::Truth(_) | Shape::TruthVariable(_) => true,
        Shape::Unary(op, x) => is_not(op) && is_propositional(x),
        Shape::Binary(op, x, y) => {
            is_connective(op) && (is_propositional(x) && is_propositional(y))
        }
        _ => false,
    }
}

// Whether all terms are propositional.
fn are_propositional(terms: &[Expr]) -> bool
    ensures { IsTrue result ↔ All (λ h. IsTrue (is_propositional h)) terms.now }
{
    for term in terms {
        if !is_propositional(term) {
            return false;
        }
    }
    true
}

impl Goal {
    ghost use Rattle.bv_expr.specs.Propositional.{IsPropositional};

    /// Whether all terms of the goal are truths, variables that are truths, and `!`, `&&`, `||`, `^^` and `=` of such.
    /// Takes time by the number of nodes, and stack by their depth.
    pub fn is_propositional(&self) -> bool
        ensures { IsTrue result ↔ IsPropositional self.now.hyps self.now.concl }
    {
        are_propositional(self.hyps.as_slice()) && is_propositional(&self.concl)
    }
}
