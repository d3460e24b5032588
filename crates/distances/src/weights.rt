ghost use Rattle.std.specs.Prelude.{IfOk};
ghost use Rattle.arc_table.specs.Incoming.{AreReverseMoves};
ghost use Rattle.arc_table.specs.Runs.{SizesWithin};
ghost use Rattle.arc_table.specs.States.{states_of};
ghost use Rattle.distances.specs.Least.{AreLeast};

use crate::rounds::{fixed_point, initial_weights};
use crate::settle::settle;
use arc_table::{Incoming, Table};
use std::alloc::Global;
use tier_core::NoMemory;
use weight_law::Weight;

/// The least weights, over the reversed moves.
fn over_incoming<W: Weight>(
    alloc: Global,
    table: &Table<W>,
    incoming: &Incoming<W>,
) -> Result<Vec<Option<W>>, NoMemory>
    requires turned { AreReverseMoves (states_of table.now) incoming.now }
    requires sizes { SizesWithin (states_of table.now) u32.MAX }
    ensures { IfOk result (λ least. AreLeast (states_of table.now) least.items) }
{
    let mut least = initial_weights(alloc, table)?;
    settle(alloc, table, incoming, &mut least)?;
    Ok(fixed_point(table, least))
}

/// For each state the least weight of a path from it to an accepting state, and `None` exactly if
/// there is no such path. The number of states times the greatest size of an arc must fit in 32
/// bits.
pub fn to_final<W: Weight>(alloc: Global, table: &Table<W>) -> Result<Vec<Option<W>>, NoMemory>
    requires { SizesWithin (states_of table.now) u32.MAX }
    ensures { IfOk result (λ least. AreLeast (states_of table.now) least.items) }
{
    let incoming = Incoming::of_table(alloc, table)?;
    over_incoming(alloc, table, &incoming)
}
