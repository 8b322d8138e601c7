//! Variables for the nodes of a circuit: a set in order of insertion gives a node's variable by one look-up, and the
//! nodes stand beside it in the same order.

ghost use Rattle.std.specs.Prelude.{◌≡◌, ◌<◌, ◌≤◌, ◌+◌, true, false, length, IfOk, OnOk, OnErr, Some, None, MatchOption, if◌then◌else◌};
ghost use Rattle.cone_walk.specs.Cone.{is_placed, are_placed, is_before};
ghost use Rattle.cone_walk.specs.Numbered.{Numbered, none_numbered, is_numbered, with_node, with_input, numbered_literal};

use crate::node::ConeNode;
use gate_shape::Lit23;
use indexmap::IndexSet;
use sat_form::Lit;
use std::alloc::{AllocError, Global};
use std::marker::Model;

/// The nodes that have variables, 2, 3, .. in the order in which they got them. Each call is one look-up by hash.
#[derive(Drop)]
pub struct Numbering {
    numbers: IndexSet<u32>,
    nodes: Vec<ConeNode>,
}

impl Model for Numbering {
    ghost use Rattle.cone_walk.specs.Numbered.{Numbered, IsNumbering};

    ghost Value = { Numbered };

    ghost view = { λ a. record { numbers = a.numbers.keys; nodes = a.nodes.items } };

    ghost invariant = { λ a. IsNumbering a.numbers.keys a.nodes.items };
}

impl Numbering {
    /// No node.
    pub fn new(alloc: Global) -> Numbering
        ensures { result ≡ none_numbered }
    {
        Numbering {
            numbers: IndexSet::new(alloc),
            nodes: Vec::new(alloc),
        }
    }

    /// Whether the node has a variable. The constant has the variable 1 from the first.
    pub fn has(&self, node: u32) -> bool
        ensures { result ≡ is_numbered self.now node }
    {
        node == 0 || self.numbers.contains(&node)
    }

    /// The literal of a node's variable.
    pub fn literal(&self, lit: Lit23) -> Lit
        requires { is_numbered self.now lit.node ≡ true }
        ensures value { result ≡ numbered_literal self.now lit }
        ensures before { is_before (length self.now.nodes + 2) result ≡ true }
    {
        let node = lit.node();
        if node == 0 {
            return Lit::new(1, lit.sign());
        }
        match self.numbers.get_index_of(&node) {
            Some(at) => Lit::new(2 + at as u32, !lit.sign()),
            None => Lit::new(1, true),
        }
    }

    /// Gives the node of a literal the next variable, if it has none. What is here after a refusal isn't said.
    pub fn put(&mut self, lit: Lit23, node: ConeNode) -> Result<(), AllocError>
        requires { is_placed (length self.old.nodes + 2) node ≡ true }
        ensures { OnOk result (self.new ≡ with_node self.old lit.node node) }
    {
        let number = lit.node();
        if self.has(number) {
            return Ok(());
        }
        self.nodes.push(node)?;
        if let Err(refused) = self.numbers.insert(number) {
            let _ = self.nodes.pop();
            return Err(AllocError::from(refused));
        }
        Ok(())
    }

    /// Sees to it that the node of a literal has a variable if it is an input, and gives the literal
    /// if its node is a gate without one.
    pub fn reach(&mut self, lit: Lit23) -> Result<Option<Lit23>, AllocError>
        ensures inputs { OnOk result (self.new ≡ with_input self.old lit.node) }
        ensures wanted { IfOk result (λ r. r ≡ (if is_numbered self.new lit.node then None else Some lit)) }
    {
        let number = lit.node();
        if number == 0 || number > 8192 {
            return Ok(if self.has(number) { None } else { Some(lit) });
        }
        let at = number - 1;
        self.put(lit, ConeNode::Input((at / 128) as u8, (at % 128) as u8))?;
        Ok(None)
    }

    /// The nodes, in the order of their variables.
    pub fn into_nodes(self) -> Vec<ConeNode>
        ensures value { result.items ≡ self.nodes }
        ensures few { length self.nodes < 4194304 }
        ensures placed { are_placed 2 self.nodes ≡ true }
    {
        self.nodes
    }
}
