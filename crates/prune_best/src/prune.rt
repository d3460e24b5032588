ghost use Rattle.std.specs.Prelude.{IfOk, IsSome, None, slice_index_or};
ghost use Rattle.arc_table.specs.Runs.{SizesWithin};
ghost use Rattle.arc_table.specs.States.{states_of};
ghost use Rattle.distances.specs.Least.{AreLeast};
ghost use Rattle.prune_best.specs.Tight.{IsTight};

use crate::moves::new_state;
use crate::names::number_state;
use crate::tight_table::Tight;
use arc_table::Table;
use std::alloc::Global;
use tier_core::NoMemory;
use weight_law::Weight;

/// The part of the table that accepts exactly its words of least weight. `least` is what
/// `to_final` gives, with a weight at the start.
///
/// The new table's states are those that least moves lead to from the start, and each is on a path
/// to an accepting state. Its moves are exactly the least moves between them. State 0 remains
/// state 0.
pub fn tight<W: Weight>(
    alloc: Global,
    table: &Table<W>,
    least: &[Option<W>],
) -> Result<Tight, NoMemory>
    requires sizes { SizesWithin (states_of table.now) u32.MAX }
    requires least { AreLeast (states_of table.now) least.now }
    requires start { IsSome (slice_index_or least.now 0 None) }
    ensures { IfOk result
        (λ tight. IsTight (states_of table.now) (states_of tight.table) tight.states.items) }
{
    let mut numbers = vec![in alloc; None; table.len() as usize]?;
    let mut names = Vec::new(alloc);
    let _start = number_state(&mut names, &mut numbers, 0)?;
    let mut states = Vec::new(alloc);
    'making: while states.len() < names.len() {
        let old = names[states.len()];
        let state = new_state(alloc, table, least, old, &mut names, &mut numbers)?;
        states.push(state)?;
    }
    Ok(Tight {
        table: Table::of_states(states),
        states: names,
    })
}
