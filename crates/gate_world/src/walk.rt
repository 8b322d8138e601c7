//! A goal whose circuit is built walks its cone over the words of the table: a load a gate. What the walk meets is in the
//! view that the goal had when it had built its circuit, and that view stays.

ghost use Rattle.std.specs.Prelude.{◌≡◌, List, ℕ, IfOk};
ghost use Rattle.gate_world.specs.World.{Actor};
ghost use Rattle.gate_world.specs.Work.{Problem, Work as ModelWork, cone_of, to_walk};
ghost use Rattle.gate_world.specs.Cone.{HasBuilt, IsAtWalk, ShowsWalked, WalkMoves, WalksOn};

use crate::build::Calls;
use cone_walk::{Ask, Cone, Walk};
use gate_shape::{Lit23, unpack};
use std::alloc::{AllocError, Global};

/// A goal that walks its cone.
#[derive(Drop)]
pub struct Walking {
    walk: Walk,
    /// The gate whose word is loaded next.
    node: u32,
    /// All gates that the walk has asked for, this one among them.
    nodes: Vec<u32>,
}

/// What a walk comes to behind a load.
#[derive(Drop)]
pub enum Walked {
    /// It asks for the word of one more gate.
    Asks(Walking),
    /// The cone, and the nodes of its gates.
    Whole(Cone, Vec<u32>),
}

/// The walk is told the fanins of the gate that it asked for, and nothing at first.
fn told(walk: Walk, nodes: Vec<u32>, fanins: Option<(Lit23, Lit23)>) -> Result<Walked, AllocError>
    ensures { IfOk result (WalksOn walk nodes.items fanins) }
{
    let mut walk = walk;
    let mut nodes = nodes;
    match walk.next(fanins)? {
        Ask::Node(node) => {
            nodes.push(node)?;
            Ok(Walked::Asks(Walking { walk, node, nodes }))
        }
        Ask::Done => Ok(Walked::Whole(walk.finish(), nodes)),
    }
}

/// The walk over the cone of a goal whose circuit is built, up to the first gate that it asks for; or the cone, where it
/// has no gate. O(1). The only error is want of memory.
pub fn start_walk(alloc: Global, calls: &Calls) -> Result<Walked, AllocError>
    requires { (p : Problem) × (words : List ℕ) × (seen : List ℕ) × HasBuilt p words seen calls.now }
    ensures { IfOk result (λ walked. (p : Problem) (words seen : List ℕ) → HasBuilt p words seen calls.now → ShowsWalked p seen walked (to_walk p (cone_of p))) }
{
    match calls.script.end {
        Ok(root) => {
            let walk = Walk::start(alloc, calls.literal(root))?;
            told(walk, Vec::new(alloc), None)
        }
        Err(_) => unreachable!(),
    }
}

impl Walking {
    /// The word of the gate that was asked for is loaded, and the walk goes on to the next one. Amortised O(1). The only
    /// error is want of memory.
    pub fn step(self, words: &[u64]) -> Result<Walked, AllocError>
        requires { (a : Actor) × (w : ModelWork) × IsAtWalk a w words.now self }
        ensures { IfOk result (WalkMoves words.now self) }
    {
        let (_level, left, right) = unpack(words[(self.node - 8193) as usize]);
        told(self.walk, self.nodes, Some((left, right)))
    }
}
