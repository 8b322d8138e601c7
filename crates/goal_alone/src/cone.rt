//! The cone of a literal of a list of gates: the walk is told the fanins of each gate that it asks for.
ghost use Rattle.std.specs.Prelude.{◌≡◌, ◌≤◌, ◌<◌, IfOk, None};
ghost use Rattle.gate_shape.specs.Builds.{Known, OneEach, edge};
ghost use Rattle.gate_shape.specs.Listed.{listed};
ghost use Rattle.tseitin.specs.Clauses.{AreConeOf};

use cone_walk::{Ask, Cone, Walk};
use gate_shape::{ListBuilder, Lit23};
use std::alloc::{AllocError, Global};

/// The cone of a known literal of a list of gates.
/// Errors: want of memory alone. Cost: linear in the cone, one look-up by hash a node.
pub fn cone_of(alloc: Global, gates: &ListBuilder, root: Lit23) -> Result<Cone, AllocError>
    requires known { Known (listed gates.now) root }
    requires once { OneEach (listed gates.now) }
    ensures { IfOk result (λ cone. AreConeOf (edge (listed gates.now) root) cone.nodes.items cone.root) }
{
    let mut walk = Walk::start(alloc, root)?;
    let mut fanins = None;
    'asks: loop {
        match walk.next(fanins)? {
            Ask::Done => return Ok(walk.finish()),
            Ask::Node(node) => {
                let (left, right, _) = gates.fanins(Lit23::new(node, false));
                fanins = Some((left, right));
            }
        }
    }
}
