//! The cone of a circuit's literal: its inputs and gates in order of first completion of a left-first walk, which is
//! the order that gives each of them its variable.
#![tactic(auto)]

ghost use Rattle.std.specs.Prelude.{◌≡◌, true};
ghost use Rattle.cone_walk.specs.Cone.{is_cone};

mod node;
mod numbering;
mod walk;

pub use node::ConeNode;
use sat_form::Lit;
pub use walk::{Ask, Walk};

/// The nodes of a literal's cone in their order. Node i, from 0, is variable i + 2, and variable 1 is true.
///
/// The type keeps that there are fewer than 2^22 nodes, that each literal of a gate is of variable 1 or of an
/// earlier node, and that the root is of variable 1 or of a node.
#[derive(Drop)]
pub struct Cone {
    pub nodes: Vec<ConeNode>,
    pub root: Lit,
    pub ghost in_order: { is_cone nodes.items root ≡ true },
}

#[cfg(test)]
mod tests;
