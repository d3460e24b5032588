ghost use Rattle.std.specs.Prelude.{IfOk, MatchOption};
ghost use Rattle.tier_core.specs.Orders.{IsFirst};
ghost use Rattle.arc_table.specs.Runs.{Accepts};
ghost use Rattle.arc_table.specs.States.{states_of};
ghost use Rattle.first_paths.specs.First.{AcceptsNone};

use crate::choice::choose;
use crate::lengths::lengths;
use arc_table::Table;
use std::alloc::Global;
use tier_core::{NoMemory, Timeline};
use weight_law::UnitWeight;

/// The first of the timelines that the table accepts, and `None` exactly if it accepts none.
pub fn first(alloc: Global, table: &Table<UnitWeight>) -> Result<Option<Timeline>, NoMemory>
    ensures { IfOk result (λ first.
        MatchOption first (AcceptsNone (states_of table.now))
        (IsFirst (Accepts (states_of table.now)))) }
{
    let left = lengths(alloc, table)?;
    let most = match left[0] {
        None => return Ok(None),
        Some(most) => most.0,
    };
    let mut timeline = Timeline::new(alloc);
    let mut state = 0;
    for done in 0..most {
        let choice = choose(alloc, table.arcs(state), &left, most - 1 - done);
        if timeline.push(choice.column).is_err() {
            return Err(NoMemory);
        }
        state = choice.target;
    }
    Ok(Some(timeline))
}
