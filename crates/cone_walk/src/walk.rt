//! The walk: it asks for a node's fanins and is told them, so that it serves over a list, a table and a world of
//! steps alike. Its path is a vector, so the depth of a circuit is memory and not stack.

ghost use Rattle.std.specs.Prelude.{◌≡◌, ◌∷◌, ◌++◌, List, [], IfOk, OnOk, OnErr, IsErr, None};
ghost use Rattle.gate_shape.specs.Literal.{Literal};
ghost use Rattle.gate_shape.specs.Builds.{Meaning, Known, OneEach, edge};
ghost use Rattle.cone_walk.specs.Cone.{cone_nodes, cone_root};
ghost use Rattle.cone_walk.specs.Numbered.{gates_in};

use crate::Cone;
use crate::node::ConeNode;
use crate::numbering::Numbering;
use gate_shape::Lit23;
use std::alloc::{AllocError, Global};

/// What a walk asks for.
#[derive(Clone, Copy, Debug, PartialEq, Eq)]
pub enum Ask {
    /// The fanins of this node, which is a gate.
    Node(u32),
    /// Nothing more.
    Done,
}

/// A gate with its fanins, which aren't all done.
#[derive(Drop)]
pub struct Frame {
    gate: Lit23,
    left: Lit23,
    right: Lit23,
}

/// How far a walk has come.
#[derive(Drop)]
pub enum Stage {
    Begun,
    Asks(Lit23),
    Done,
    Failed,
}

/// A left-first walk over the cone of a literal, which asks for the fanins of each gate once.
///
/// All its turns together are linear in the cone, and a turn costs what it completes, one look-up by hash a node.
#[derive(Drop)]
pub struct Walk {
    root: Lit23,
    numbering: Numbering,
    path: Vec<Frame>,
    stage: Stage,
}

impl Numbering {
    ghost use Rattle.cone_walk.specs.Walk.{Walks, Closes, MovesGate};

    /// Gives the gate a variable if both of its fanins have one, else the fanin to be asked for.
    fn close(&mut self, frame: &Frame) -> Result<Option<Lit23>, AllocError>
        ensures closes { IfOk result (λ r. (m : Meaning) (root : Literal) (path : List _) → Walks m root self.old (path ++ frame.now ∷ []) [] → Closes m root path frame.now self.old self.new r) }
        ensures moves { IfOk result (λ r. (path : List _) → MovesGate path frame.now self.old self.new r) }
    {
        if let Some(fanin) = self.reach(frame.left)? {
            return Ok(Some(fanin));
        }
        if let Some(fanin) = self.reach(frame.right)? {
            return Ok(Some(fanin));
        }
        let node = ConeNode::Gate(self.literal(frame.left), self.literal(frame.right));
        self.put(frame.gate, node)?;
        Ok(None)
    }
}

impl Walk {
    ghost use Rattle.cone_walk.specs.Walk.{Walks, IsOpened, IsAtEnd, Wants, MeetsSame, opened, gates_met, Follows, IsReply, Replies, IsStageOf, Advances, IsNode, asks_made, IsDone, IsBegun, HasFailed, root_of};
    ghost use Rattle.cone_walk.specs.declared.walk.Stage.TheVariants.{Begun, Failed};

    /// A walk from this literal. O(1), and it takes no memory.
    pub fn start(alloc: Global, root: Lit23) -> Result<Walk, AllocError>
        ensures begun { IfOk result (IsBegun root) }
        ensures follows { IfOk result (λ w. (m : Meaning) → Known m root → OneEach m → Follows m w) }
    {
        Ok(Walk {
            root,
            numbering: Numbering::new(alloc),
            path: Vec::new(alloc),
            stage: Stage::Begun,
        })
    }

    /// The next gate whose fanins are wanted, told the fanins of the last one (and nothing at first).
    ///
    /// Want of memory is answered again by all later calls.
    pub fn next(&mut self, fanins: Option<(Lit23, Lit23)>) -> Result<Ask, AllocError>
        ensures root { root_of self.new ≡ root_of self.old }
        ensures again { HasFailed self.old → IsErr result }
        ensures failed { OnErr result (HasFailed self.new) }
        ensures answered { IfOk result (IsStageOf self.new) }
        ensures node { IfOk result IsNode }
        ensures follows { IfOk result (λ ask. (m : Meaning) → Follows m self.old → Replies m self.old fanins → Advances m self.old self.new ask) }
    {
        if let Stage::Failed = &self.stage {
            return Err(AllocError);
        }
        match self.go_on(fanins) {
            Ok(Some(gate)) => {
                let node = gate.node();
                self.stage = Stage::Asks(gate);
                Ok(Ask::Node(node))
            }
            Ok(None) => {
                self.stage = Stage::Done;
                Ok(Ask::Done)
            }
            Err(refused) => {
                self.stage = Stage::Failed;
                Err(refused)
            }
        }
    }

    /// The cone of the root: its nodes in order of first completion. O(1).
    pub fn finish(self) -> Cone
        requires { IsDone self }
        ensures nodes { (m : Meaning) → Follows m self → result.nodes.items ≡ cone_nodes (edge m (root_of self)) }
        ensures root { (m : Meaning) → Follows m self → result.root ≡ cone_root (edge m (root_of self)) }
        ensures gates { (m : Meaning) → Follows m self → gates_in result.nodes.items ≡ asks_made self }
    {
        let root = self.numbering.literal(self.root);
        Cone {
            nodes: self.numbering.into_nodes(),
            root,
        }
    }

    /// Opens the gate that was asked for, and goes on to the next one.
    fn go_on(&mut self, fanins: Option<(Lit23, Lit23)>) -> Result<Option<Lit23>, AllocError>
        ensures root { self.new.root ≡ self.old.root }
        ensures done { IfOk result (λ r. r ≡ None → IsAtEnd self.new) }
        ensures follows { IfOk result (λ r. (m : Meaning) → Follows m self.old → IsReply m self.old.stage fanins → Wants m self.old.root self.new.numbering self.new.path.items (asks_made self.old) r) }
        ensures met { OnOk result (MeetsSame self.old.numbering (opened self.old.path.items self.old.stage fanins) self.new.numbering self.new.path.items) }
    {
        self.open(fanins)?;
        self.advance()
    }

    /// Opens the gate that was asked for.
    fn open(&mut self, fanins: Option<(Lit23, Lit23)>) -> Result<(), AllocError>
        ensures root { self.new.root ≡ self.old.root }
        ensures opened { OnOk result (IsOpened self.old fanins self.new) }
    {
        if let Stage::Asks(gate) = &self.stage {
            if let Some((left, right)) = fanins {
                self.path.push(Frame {
                    gate: *gate,
                    left,
                    right,
                })?;
            }
        }
        Ok(())
    }

    /// Completes the open gates from the innermost one on, up to the first that waits for a gate.
    fn advance(&mut self) -> Result<Option<Lit23>, AllocError>
        ensures root { self.new.root ≡ self.old.root }
        ensures done { IfOk result (λ r. r ≡ None → IsAtEnd self.new) }
        ensures follows { IfOk result (λ r. (m : Meaning) → Walks m self.old.root self.old.numbering self.old.path.items [] → Wants m self.old.root self.new.numbering self.new.path.items (gates_met self.old) r) }
        ensures met { OnOk result (MeetsSame self.old.numbering self.old.path.items self.new.numbering self.new.path.items) }
    {
        while let Some(frame) = self.path.last() {
            if let Some(fanin) = self.numbering.close(frame)? {
                return Ok(Some(fanin));
            }
            let _ = self.path.pop();
        }
        self.numbering.reach(self.root)
    }
}
