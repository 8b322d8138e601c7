//! The clauses of a cone by Tseitin's encoding: three for each gate, so that their number is linear in the cone.
#![tactic(auto)]

ghost use Rattle.std.specs.Prelude.{◌≡◌, ◌+◌, ◌<◌, ◌++◌, ◌^◌, IfOk, OnOk, length};
ghost use Rattle.gate_shape.specs.Edge.{Edge};
ghost use Rattle.tseitin.specs.Clauses.{cone_clauses, node_clauses, AreConeOf, SatisfiableExactly, clauses as clauses_of, variables};

use cone_walk::{Cone, ConeNode};
use sat_form::{Clauses, Cnf, Lit};
use std::alloc::{AllocError, Global};

/// Adds the clauses of the node that is this variable.
fn push_node(clauses: &mut Clauses, var: u32, node: &ConeNode) -> Result<(), AllocError>
    requires { (0 < var) × (var < 2 ^ 31) }
    ensures { OnOk result (clauses.new ≡ clauses.old ++ node_clauses var node.now) }
{
    if let ConeNode::Gate(left, right) = node {
        let gate = Lit::new(var, true);
        clauses.push(&[gate.not(), *left])?;
        clauses.push(&[gate.not(), *right])?;
        clauses.push(&[gate, left.not(), right.not()])?;
    }
    Ok(())
}

/// The clauses of a cone, over its variables (Tseitin's encoding): that variable 1 is true, three for each gate in
/// order of variables, and the root. O(number of nodes).
///
/// For the edge whose cone it is they say what the edge says: values of its inputs extend to values that satisfy the
/// clauses exactly where the edge is true, and then in one way.
pub fn clauses(alloc: Global, cone: &Cone) -> Result<Cnf, AllocError>
    ensures vars { IfOk result (λ cnf. cnf.vars ≡ length cone.now.nodes.items + 1) }
    ensures clauses { IfOk result (λ cnf. cnf.clauses ≡ cone_clauses cone.now.nodes.items cone.now.root) }
    ensures edge { IfOk result (λ cnf. (e : Edge) → AreConeOf e cone.now.nodes.items cone.now.root → (cnf.vars ≡ variables e) × (cnf.clauses ≡ clauses_of e)) }
    ensures exactly { IfOk result (λ cnf. (e : Edge) → AreConeOf e cone.now.nodes.items cone.now.root → SatisfiableExactly e cnf.clauses) }
{
    let mut clauses = Clauses::new(alloc);
    clauses.push(&[Lit::new(1, true)])?;
    for (i, node) in cone.nodes.iter().enumerate() {
        push_node(&mut clauses, i as u32 + 2, node)?;
    }
    clauses.push(&[cone.root])?;
    Ok(Cnf {
        vars: cone.nodes.len() as u32 + 1,
        clauses,
    })
}

#[cfg(test)]
mod tests;
