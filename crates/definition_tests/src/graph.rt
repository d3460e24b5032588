ghost use Rattle.std.specs.Prelude.{IfOk, IfSome};
ghost use Rattle.arc_table.specs.Runs.{SizesWithin};
ghost use Rattle.arc_table.specs.States.{states_of};

use crate::fit::are_fit;
use arc_table::{Table, TableArc, TableState};
use std::alloc::{AllocError, Global};
use tier_core::Class;
use weight_law::Count;

/// A move of a small graph, on each symbol of a set, by the set's number.
#[derive(Clone, Copy, Debug)]
pub struct Arrow {
    pub from: u32,
    pub to: u32,
    pub set: u8,
    pub weight: u32,
}

fn arcs_from(
    alloc: Global,
    arrows: &[Arrow],
    state: u32,
) -> Result<Vec<TableArc<Count>>, AllocError> {
    let mut arcs = Vec::new(alloc);
    for arrow in arrows {
        if arrow.from == state && arrow.set < 32 {
            arcs.push(TableArc {
                class: Class::of_bits(&[arrow.set]),
                target: arrow.to,
                weight: Count(arrow.weight),
            })?;
        }
    }
    Ok(arcs)
}

/// The table over one tier of a small graph, and `None` if the graph is not one: for each state
/// whether it is accepting, and the arrows.
pub fn small_table(
    alloc: Global,
    accepting: &[bool],
    arrows: &[Arrow],
) -> Result<Option<Table<Count>>, AllocError>
    ensures { IfOk result (λ found. IfSome found (λ table. SizesWithin (states_of table) u32.MAX)) }
{
    let mut states = Vec::new(alloc);
    for number in 0..accepting.len().min(1_000) {
        let arcs = arcs_from(alloc, arrows, number as u32)?;
        states.push(TableState {
            accepting: accepting[number],
            arcs,
        })?;
    }
    if states.is_empty() || states.len() > 1_000 {
        return Ok(None);
    }
    if !are_fit(&states) {
        return Ok(None);
    }
    Ok(Some(Table::of_states(states)))
}
