ghost use Rattle.std.specs.Prelude.{◌<◌, length};
ghost use Rattle.arc_table.specs.States.{states_of};

use super::*;
use std::test::Fail;
use weight_law::{Count, Weight};

fn size_and_end<W: Weight>(table: &Table<W>) -> (u32, bool, usize)
    requires { 0 < length (states_of table.now) }
{
    (table.len(), table.accepting(0), table.arcs(0).len())
}

#[test]
fn one_state_without_moves(rt: HostRuntime) -> Result<(), Fail> {
    let arcs = Vec::<TableArc<Count>>::new(rt.alloc());
    let mut states = Vec::new(rt.alloc());
    states.push(TableState {
        accepting: true,
        arcs,
    })?;
    let table = Table::of_states(states);
    assert_eq!(rt; size_and_end(&table), (1, true, 0));
    Ok(())
}
