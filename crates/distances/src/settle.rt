ghost use Rattle.std.specs.Prelude.{◌≡◌, ◌<◌, ◌≤◌, ◌+◌, All, IfOk, IsPermutation, IsTrue, None, length, map, slice_index_or, true};
ghost use Rattle.std.specs.BinaryHeap.{heap_items};
ghost use Rattle.arc_table.specs.Incoming.{AreReverseMoves};
ghost use Rattle.arc_table.specs.Runs.{SizesWithin};
ghost use Rattle.arc_table.specs.States.{states_of};
ghost use Rattle.distances.specs.Best.{is_lower};
ghost use Rattle.distances.specs.Rounds.{AreWitnessed};
ghost use Rattle.distances.specs.Settled.{ends_below, relax_all, KeepsWitnesses};

use crate::rounds::differ;
use crate::waiting::Waiting;
use arc_table::{Incoming, IncomingMove, Table};
use std::alloc::{AllocError, Global};
use std::cmp::Ordering;
use std::collections::BinaryHeap;
use weight_law::Weight;

/// The accepting states, which wait with zero.
fn ends<W: Weight>(alloc: Global, table: &Table<W>) -> Result<BinaryHeap<Waiting<W>>, AllocError>
    ensures each { IfOk result
        (λ heap. IsPermutation (ends_below (states_of table.now) (length (states_of table.now)))
        (map (λ waiting. waiting.state) (heap_items heap))) }
    ensures zero { IfOk result
        (λ heap. All (λ waiting. waiting.weight ≡ W.meaning.zero) (heap_items heap)) }
{
    let mut heap = BinaryHeap::new(alloc);
    for state in 0..table.len() {
        if !table.accepting(state) {
            continue;
        }
        heap.push(Waiting {
            weight: W::zero(),
            state,
        })?;
    }
    Ok(heap)
}

/// Whether a weight is less than what is known, if anything is.
fn lowers<W: Weight>(weight: W, known: Option<W>) -> bool
    ensures { result ≡ is_lower W.meaning weight known }
{
    match known {
        None => true,
        Some(other) => match weight.compare(&other) {
            Ordering::Less => true,
            _ => false,
        },
    }
}

/// What is known of a state, and nothing if there is no such state.
fn known_at<W: Weight>(least: &[Option<W>], state: u32) -> Option<W>
    ensures { result ≡ slice_index_or least.now state None }
{
    match least.get(state as usize) {
        Some(known) => *known,
        None => None,
    }
}

/// Looks at each of the moves to a state with the weight `rest`. A state whose known weight this
/// lowers waits with its new weight.
fn relax<W: Weight>(
    moves: &[IncomingMove<W>],
    rest: W,
    least: &mut Vec<Option<W>>,
    heap: &mut BinaryHeap<Waiting<W>>,
) -> Result<(), AllocError>
    requires inside { All (λ move. move.source < length least.old.items) moves.now }
    requires lawful { IsTrue (W.meaning.lawful rest) }
    requires weights { All (λ move. IsTrue (W.meaning.lawful move.weight)) moves.now }
    requires sizes { All
        (λ move. W.meaning.size move.weight + W.meaning.size rest ≤ u32.MAX) moves.now }
    ensures { IfOk result
        (λ _. least.new.items ≡ relax_all W.meaning rest least.old.items moves.now) }
{
    for incoming in moves {
        let state = incoming.source;
        let weight = incoming.weight.plus(&rest);
        if !lowers(weight, least[state as usize]) {
            continue;
        }
        least[state as usize] = Some(weight);
        heap.push(Waiting { weight, state })?;
    }
    Ok(())
}

/// Takes the least weight that waits first, and looks at the moves to its state. A state for which
/// less is known by now is skipped. The limit on turns is more than any machine makes; whether
/// everything was seen is for the caller to find out.
pub(crate) fn settle<W: Weight>(
    alloc: Global,
    table: &Table<W>,
    incoming: &Incoming<W>,
    least: &mut Vec<Option<W>>,
) -> Result<(), AllocError>
    requires turned { AreReverseMoves (states_of table.now) incoming.now }
    requires each_state { length least.old.items ≡ length (states_of table.now) }
    requires sizes { SizesWithin (states_of table.now) u32.MAX }
    requires witnessed { AreWitnessed (states_of table.now) least.old.items }
    ensures { IfOk result (λ _. KeepsWitnesses
        (states_of table.now) least.old.items least.new.items) }
{
    let mut heap = ends(alloc, table)?;
    for _turn in 0..u64::MAX {
        let Some(top) = heap.pop() else {
            return Ok(());
        };
        if differ(known_at(least, top.state), Some(top.weight)) {
            continue;
        }
        relax(incoming.moves_to(top.state), top.weight, least, &mut heap)?;
    }
    Ok(())
}
