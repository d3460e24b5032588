ghost use Rattle.std.specs.Prelude.{◌≡◌, ◌↔◌, ◌<◌, ◌≤◌, ◌+◌, ℕ, IfOk, length, false};
ghost use Rattle.arc_table.specs.Runs.{SizesWithin};
ghost use Rattle.arc_table.specs.States.{states_of};
ghost use Rattle.distances.specs.Best.{initial_of};
ghost use Rattle.distances.specs.Rounds.{AreWitnessed, IsCovered, AreClosed};
ghost use Rattle.distances.specs.Least.{AreLeast};

use crate::look::best;
use arc_table::Table;
use std::alloc::{AllocError, Global};
use std::cmp::Ordering;
use weight_law::Weight;

/// What is known with no move: zero at accepting states.
pub(crate) fn initial_weights<W: Weight>(
    alloc: Global,
    table: &Table<W>,
) -> Result<Vec<Option<W>>, AllocError>
    ensures { IfOk result (λ least. least.items ≡ initial_of (states_of table.now)) }
{
    let mut least = Vec::new(alloc);
    for state in 0..table.len() {
        let known = if table.accepting(state) {
            Some(W::zero())
        } else {
            None
        };
        least.push(known)?;
    }
    Ok(least)
}

/// Whether two weights differ, of which either may be missing.
pub(crate) fn differ<W: Weight>(a: Option<W>, b: Option<W>) -> bool
    ensures { (result ≡ false) ↔ (a ≡ b) }
{
    match (a, b) {
        (None, None) => false,
        (Some(a), Some(b)) => match a.compare(&b) {
            Ordering::Equal => false,
            _ => true,
        },
        _ => true,
    }
}

/// Looks at the moves of each state once, the last state first, since arcs mostly lead to later
/// states. Returns whether anything changed.
fn round<W: Weight>(table: &Table<W>, least: &mut [Option<W>]) -> bool
    requires each_state { length least.old ≡ length (states_of table.now) }
    requires sizes { SizesWithin (states_of table.now) u32.MAX }
    requires witnessed { AreWitnessed (states_of table.now) least.old }
    ensures each_state { length least.new ≡ length (states_of table.now) }
    ensures witnessed { AreWitnessed (states_of table.now) least.new }
    ensures covered { (k : ℕ) → IsCovered (states_of table.now) least.old k
        → IsCovered (states_of table.now) least.new (k + 1) }
    ensures closed { result ≡ false → AreClosed (states_of table.now) least.new }
{
    let mut changed = false;
    let count = table.len();
    for done in 0..count {
        let state = count - 1 - done;
        let known = least[state as usize];
        let found = best(table.arcs(state), least, known);
        changed |= differ(known, found);
        least[state as usize] = found;
    }
    changed
}

/// The least weights, by rounds until nothing changes. If the weights are already least, the first
/// round shows it.
pub(crate) fn fixed_point<W: Weight>(table: &Table<W>, mut least: Vec<Option<W>>) -> Vec<Option<W>>
    requires each_state { length least.items ≡ length (states_of table.now) }
    requires sizes { SizesWithin (states_of table.now) u32.MAX }
    requires witnessed { AreWitnessed (states_of table.now) least.items }
    requires covered { IsCovered (states_of table.now) least.items 0 }
    ensures { AreLeast (states_of table.now) result.items }
{
    for _rounds in 0..table.len() {
        if !round(table, &mut least) {
            return least;
        }
    }
    least
}
