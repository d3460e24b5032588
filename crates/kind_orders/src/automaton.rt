ghost use Rattle.std.specs.Prelude.{◌≡◌, ◌≢◌, ◌<◌, All, AllPairs, IfOk, length, map, slice_index};
ghost use Rattle.arc_table.specs.States.{states_of};
ghost use Rattle.kind_orders.specs.AutomatonLines.{AreLinesOf, state_nodes};
ghost use Rattle.kind_orders.specs.Automata.{IsAutomatonOf};
ghost use Rattle.kind_orders.specs.JoinedArcs.{HaveJoinedArcs};
ghost use Rattle.kind_orders.specs.Orderings.{IsOrdering};

use crate::lines::{all_lines, states_by_node};
use answer_text::{Automaton, StateLine};
use arc_table::Table;
use std::alloc::{AllocError, Global};
use tier_core::NoMemory;
use weight_law::UnitWeight;

/// The node number of each state.
fn node_numbers(alloc: Global, states: &[u32], ranks: &[u32]) -> Result<Vec<u32>, AllocError>
    requires { All (λ kind. kind < length ranks.now) states.now }
    ensures { IfOk result (λ nodes. nodes.items ≡ state_nodes ranks.now states.now) }
{
    let mut nodes = Vec::new(alloc);
    for kind in states {
        nodes.push(ranks[*kind as usize])?;
    }
    Ok(nodes)
}

/// The lines of the states of a table, by their node numbers.
fn lines_by_node(
    alloc: Global,
    kept: &Table<UnitWeight>,
    states: &[u32],
    ranks: &[u32],
) -> Result<Vec<StateLine>, AllocError>
    requires count { length states.now ≡ length (states_of kept.now) }
    requires kinds { All (λ kind. kind < length ranks.now) states.now }
    requires once { AllPairs (λ a b. a ≢ b) states.now }
    requires ranks { IsOrdering (length ranks.now) ranks.now }
    ensures { IfOk result
        (λ lines. AreLinesOf (states_of kept.now) (state_nodes ranks.now states.now) lines.items) }
{
    let nodes = node_numbers(alloc, states, ranks)?;
    let by_node = states_by_node(alloc, &nodes, ranks.len())?;
    all_lines(alloc, kept, &nodes, &by_node)
}

/// The automaton of a table, whose states stand for kinds: `states` has the number of each state's
/// kind, all of them different, and `ranks` the node number of each kind. The arcs are joined: any
/// two from one state to one target differ in the sets of at least two tiers. Fails only if memory
/// runs out.
pub fn automaton_of(
    alloc: Global,
    kept: &Table<UnitWeight>,
    states: &[u32],
    ranks: &[u32],
) -> Result<Automaton, NoMemory>
    requires count { length states.now ≡ length (states_of kept.now) }
    requires kinds { All (λ kind. kind < length ranks.now) states.now }
    requires once { AllPairs (λ a b. a ≢ b) states.now }
    requires ranks { IsOrdering (length ranks.now) ranks.now }
    ensures automaton { IfOk result
        (λ automaton.
        IsAutomatonOf (states_of kept.now)
        (state_nodes ranks.now states.now) automaton.states.items) }
    ensures joined { IfOk result (λ automaton. HaveJoinedArcs automaton.states.items) }
{
    match lines_by_node(alloc, kept, states, ranks) {
        Ok(states) => Ok(Automaton { states }),
        Err(_) => Err(NoMemory),
    }
}
