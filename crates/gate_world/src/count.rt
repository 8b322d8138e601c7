//! How many gates the cones of goals have that were searched to an end: in all, and different ones.

ghost use Rattle.std.specs.Prelude.{◌≡◌, ◌≤◌, [], All, length, nat_eq, IfOk, OnOk};
ghost use Rattle.indexmap.specs.IndexSet.{insert_all};
ghost use Rattle.gate_world.specs.Tasks.{nodes_of};
ghost use Rattle.gate_world.specs.Nodes.{all_nodes};

use crate::task::Task;
use goal_reply::GateCounts;
use indexmap::IndexSet;
use std::alloc::{AllocError, Global};

/// Puts the nodes of a cone into a set; how many they are. The only error is want of memory.
fn meet(seen: &mut IndexSet<u32>, nodes: &[u32]) -> Result<u64, AllocError>
    ensures met { OnOk result (seen.new.keys ≡ insert_all nat_eq seen.old.keys nodes.now) }
    ensures count { IfOk result (λ count. count ≡ length nodes.now) }
{
    for node in nodes {
        seen.insert(*node)?;
    }
    Ok(nodes.len() as u64)
}

/// The nodes that goals have at their ends, in all and different ones. Linear in them, one look-up by hash a node. The only
/// error is want of memory.
pub fn gate_counts(alloc: Global, tasks: &[Task]) -> Result<GateCounts, AllocError>
    requires tasks { length tasks.now ≤ 65536 }
    requires nodes { All (λ task. length (nodes_of task) ≤ 4194304) tasks.now }
    ensures { IfOk result (λ counts. (counts.in_cones ≡ length (all_nodes tasks.now)) × (counts.distinct ≡ length (insert_all nat_eq [] (all_nodes tasks.now)))) }
{
    let mut in_cones = 0u64;
    let mut seen = IndexSet::new(alloc);
    for task in tasks {
        in_cones += meet(&mut seen, task.nodes())?;
    }
    Ok(GateCounts {
        in_cones,
        distinct: seen.len() as u64,
    })
}
