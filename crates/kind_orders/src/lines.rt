ghost use Rattle.std.specs.Prelude.{◌≡◌, ◌≢◌, ◌<◌, ◌≤◌, ◌^◌, All, AllPairs, IfOk, length};
ghost use Rattle.arc_table.specs.States.{states_of};
ghost use Rattle.kind_orders.specs.AutomatonLines.{AreByNode, AreLinesOf, IsLineOf};

use crate::arcs::arc_lines;
use answer_text::StateLine;
use arc_table::Table;
use std::alloc::{AllocError, Global};
use weight_law::UnitWeight;

/// The state of each of so many node numbers, if there is one. `nodes` has the node number of each
/// state.
pub(crate) fn states_by_node(
    alloc: Global,
    nodes: &[u32],
    count: usize,
) -> Result<Vec<Option<u32>>, AllocError>
    requires few { length nodes.now < 2 ^ 32 }
    requires below { All (λ node. node < count) nodes.now }
    requires once { AllPairs (λ a b. a ≢ b) nodes.now }
    ensures count { IfOk result (λ states. length states.items ≡ count) }
    ensures by_node { IfOk result (λ states. AreByNode nodes.now (length nodes.now) states.items) }
{
    let mut states = vec![in alloc; None; count]?;
    for (state, node) in nodes.iter().enumerate() {
        states[*node as usize] = Some(state as u32);
    }
    Ok(states)
}

/// The line of a state of a table.
fn state_line(
    alloc: Global,
    kept: &Table<UnitWeight>,
    nodes: &[u32],
    state: u32,
) -> Result<StateLine, AllocError>
    requires state { state < length (states_of kept.now) }
    requires count { length nodes.now ≡ length (states_of kept.now) }
    ensures { IfOk result (IsLineOf (states_of kept.now) nodes.now state) }
{
    let arcs = arc_lines(alloc, kept.arcs(state), nodes)?;
    Ok(StateLine {
        node: nodes[state as usize],
        accepting: kept.accepting(state),
        arcs,
    })
}

/// The lines of all states of a table, by their node numbers. `states` has the state of each node
/// number.
pub(crate) fn all_lines(
    alloc: Global,
    kept: &Table<UnitWeight>,
    nodes: &[u32],
    states: &[Option<u32>],
) -> Result<Vec<StateLine>, AllocError>
    requires count { length nodes.now ≡ length (states_of kept.now) }
    requires once { AllPairs (λ a b. a ≢ b) nodes.now }
    requires below { All (λ node. node < length states.now) nodes.now }
    requires by_node { AreByNode nodes.now (length nodes.now) states.now }
    ensures { IfOk result (λ lines. AreLinesOf (states_of kept.now) nodes.now lines.items) }
{
    let mut lines = Vec::new(alloc);
    for node in states {
        let state = match node {
            None => continue,
            Some(state) => *state,
        };
        let line = state_line(alloc, kept, nodes, state)?;
        lines.push(line)?;
    }
    Ok(lines)
}
