ghost use Rattle.std.specs.Prelude.{◌≡◌, IfOk, length, map, All, ◌<◌};
ghost use Rattle.kind_orders.specs.Orderings.{IsOrdering};
ghost use Rattle.kind_orders.specs.StageNodes.{AreNodesInOrder, node_numbered};

use answer_text::{Node, Stage};
use std::alloc::{AllocError, Global};
use tier_core::{Kind, NoMemory};

/// The nodes of kinds and potentials, in an order of their numbers.
fn nodes_in(
    alloc: Global,
    kinds: &[Kind],
    potentials: &[u32],
    order: &[u32],
) -> Result<Vec<Node>, AllocError>
    requires kinds { All (λ number. number < length kinds.now) order.now }
    requires potentials { All (λ number. number < length potentials.now) order.now }
    ensures { IfOk result
        (λ nodes. nodes.items ≡ map (node_numbered kinds.now potentials.now) order.now) }
{
    let mut nodes = Vec::new(alloc);
    for number in order {
        nodes.push(Node {
            kind: kinds[*number as usize],
            potential: potentials[*number as usize],
        })?;
    }
    Ok(nodes)
}

/// The stage of kinds and potentials that are found, in an order of their numbers. Fails only if
/// memory runs out.
pub fn stage_of(
    alloc: Global,
    kinds: &[Kind],
    potentials: &[u32],
    order: &[u32],
) -> Result<Stage, NoMemory>
    requires order { IsOrdering (length kinds.now) order.now }
    requires potentials { length potentials.now ≡ length kinds.now }
    ensures { IfOk result
        (λ stage. AreNodesInOrder kinds.now potentials.now order.now stage.nodes.items) }
{
    match nodes_in(alloc, kinds, potentials, order) {
        Ok(nodes) => Ok(Stage { nodes }),
        Err(_) => Err(NoMemory),
    }
}
