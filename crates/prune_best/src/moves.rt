ghost use Rattle.std.specs.Prelude.{◌≡◌, ◌<◌, ◌^◌, ◌↔◌, All, IfOk, IsTrue, IsSome, None, length, slice_index_or};
ghost use Rattle.arc_table.specs.Runs.{SizesWithin};
ghost use Rattle.arc_table.specs.States.{states_of};
ghost use Rattle.distances.specs.Best.{FitsBoth};
ghost use Rattle.distances.specs.Least.{AreLeast};
ghost use Rattle.prune_best.specs.Names.{AreNumbered};
ghost use Rattle.prune_best.specs.Kept.{IsTightArc, AreTightMoves, NamesTargets, IsNewState};

use crate::names::number_state;
use arc_table::{Table, TableArc, TableState};
use std::alloc::{AllocError, Global};
use std::cmp::Ordering;
use weight_law::{UnitWeight, Weight};

/// Whether the weight of a move and the least weight from its target add up to `here`.
fn is_tight_arc<W: Weight>(arc: &TableArc<W>, here: W, least: &[Option<W>]) -> bool
    requires target { arc.now.target < length least.now }
    requires sizes { FitsBoth W.meaning arc.now.weight
        (slice_index_or least.now arc.now.target None) }
    ensures { IsTrue result ↔ IsTightArc least.now here arc.now }
{
    match least[arc.target as usize] {
        None => false,
        Some(rest) => match arc.weight.plus(&rest).compare(&here) {
            Ordering::Equal => true,
            _ => false,
        },
    }
}

/// The moves that are kept, from the weight `here` on, between new numbers.
fn tight_moves<W: Weight>(
    alloc: Global,
    arcs: &[TableArc<W>],
    here: W,
    least: &[Option<W>],
    names: &mut Vec<u32>,
    numbers: &mut Vec<Option<u32>>,
) -> Result<Vec<TableArc<UnitWeight>>, AllocError>
    requires targets { All (λ arc. arc.target < length least.now) arcs.now }
    requires sizes { All
        (λ arc.
        FitsBoth W.meaning arc.weight (slice_index_or least.now arc.target None)) arcs.now }
    requires same { length numbers.old.items ≡ length least.now }
    requires few { length numbers.old.items < 2 ^ 32 }
    requires numbered { AreNumbered names.old.items numbers.old.items }
    ensures same { length numbers.new.items ≡ length numbers.old.items }
    ensures numbered { IfOk result (λ _. AreNumbered names.new.items numbers.new.items) }
    ensures moves { IfOk result
        (λ moves.
        AreTightMoves least.now names.new.items here arcs.now moves.items (length arcs.now)) }
    ensures names { IfOk result
        (λ moves. NamesTargets least.now names.old.items names.new.items moves.items) }
{
    let mut moves = Vec::new(alloc);
    for arc in arcs {
        if !is_tight_arc(arc, here, least) {
            continue;
        }
        let target = number_state(names, numbers, arc.target)?;
        moves.push(TableArc {
            class: arc.class,
            target,
            weight: UnitWeight,
        })?;
    }
    Ok(moves)
}

/// The new state of an old one, with the moves that are kept.
pub(crate) fn new_state<W: Weight>(
    alloc: Global,
    table: &Table<W>,
    least: &[Option<W>],
    state: u32,
    names: &mut Vec<u32>,
    numbers: &mut Vec<Option<u32>>,
) -> Result<TableState<UnitWeight>, AllocError>
    requires inside { state < length (states_of table.now) }
    requires sizes { SizesWithin (states_of table.now) u32.MAX }
    requires least { AreLeast (states_of table.now) least.now }
    requires weighed { IsSome (slice_index_or least.now state None) }
    requires same { length numbers.old.items ≡ length (states_of table.now) }
    requires numbered { AreNumbered names.old.items numbers.old.items }
    ensures same { length numbers.new.items ≡ length numbers.old.items }
    ensures numbered { IfOk result (λ _. AreNumbered names.new.items numbers.new.items) }
    ensures made { IfOk result (λ made.
        IsNewState least.now names.new.items (states_of table.now) state
        made.accepting made.arcs.items) }
    ensures names { IfOk result
        (λ made. NamesTargets least.now names.old.items names.new.items made.arcs.items) }
{
    let here = least[state as usize].unwrap();
    let arcs = tight_moves(alloc, table.arcs(state), here, least, names, numbers)?;
    Ok(TableState {
        accepting: table.accepting(state),
        arcs,
    })
}
