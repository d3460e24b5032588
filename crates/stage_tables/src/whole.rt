ghost use Rattle.std.specs.Prelude.{◌≡◌, ◌∷◌, [], true, length, IfOk, List};
ghost use Rattle.tier_core.specs.declared.sym.Sym.{Sym};
ghost use Rattle.tier_core.specs.Classes.{sets_of, has};
ghost use Rattle.arc_table.specs.declared.arc.TableArc.{TableArc as ArcOf};
ghost use Rattle.arc_table.specs.States.{states_of};
ghost use Rattle.kind_moves.specs.Frames.{tiers_in};
ghost use Rattle.stage_tables.specs.Whole.{IsWholeState, IsWholeMove};

use arc_table::{Table, TableArc, TableState};
use kind_moves::Frame;
use std::alloc::{AllocError, Global};
use tier_core::{Class, NoMemory};
use weight_law::{UnitWeight, Weight};

/// The class of all columns of a frame.
fn every_column(frame: &Frame<'_>) -> Class
    ensures width { length (sets_of result) ≡ (tiers_in frame.now).width }
    ensures columns { (column : List Sym) → length column ≡ (tiers_in frame.now).width
        → has result column ≡ true }
{
    let width = frame.grammar.tiers.kinds.len();
    Class::of_bits(&[31; 12][..width])
}

/// The one move of a table that reads every column, and stays at its state.
fn every_move(alloc: Global, frame: &Frame<'_>) -> Result<Vec<TableArc<UnitWeight>>, AllocError>
    ensures { IfOk result
        (λ moves. (arc : ArcOf UnitWeight ⟦<UnitWeight as Weight>⟧) × (moves.items ≡ arc ∷ [])
        × IsWholeMove frame.now arc) }
{
    let mut moves = Vec::new(alloc);
    moves.push(TableArc {
        class: every_column(frame),
        target: 0,
        weight: UnitWeight,
    })?;
    Ok(moves)
}

/// The table of one state that accepts all timelines of the width of a frame.
pub(crate) fn whole_table(alloc: Global, frame: &Frame<'_>) -> Result<Table<UnitWeight>, AllocError>
    ensures { IfOk result (λ table. IsWholeState frame.now (states_of table)) }
{
    let mut states = Vec::new(alloc);
    states.push(TableState {
        accepting: true,
        arcs: every_move(alloc, frame)?,
    })?;
    Ok(Table::of_states(states))
}
