ghost use Rattle.std.specs.Prelude.{◌≡◌, length, All, IfOk};
ghost use Rattle.std.specs.List.{AllZip};
ghost use Rattle.weight_law.specs.Ranked.{IsOfVector};
ghost use Rattle.arc_table.specs.States.{states_of};
ghost use Rattle.kind_moves.specs.Frames.{tiers_in, problem_in, FitsFrame};
ghost use Rattle.violation.specs.Problems.{last_stage};
ghost use Rattle.kind_tables.specs.RankedTables.{IsRankedTable};
ghost use Rattle.stage_tables.specs.Explored.{names_at};
ghost use Rattle.stage_tables.specs.Ranking.{costs_at, AreColumnsOf, IsRankedMove, AreRankedStates, IsWholeTable};

use crate::stage_table::StageTable;
use arc_table::{Table, TableArc, TableState};
use kind_moves::Frame;
use std::alloc::{AllocError, Global};
use symbol_class::least_column;
use tier_core::{Column, Kind, NoMemory};
use weight_law::{Count, Ranked};

/// What the move from a kind by a column costs under all constraints.
fn all_costs(frame: &Frame<'_>, kind: &Kind, column: &Column) -> Ranked
    requires fits { FitsFrame frame.now (last_stage (problem_in frame.now)) kind.now }
    requires width { length column.now ≡ (tiers_in frame.now).width }
    ensures { IsOfVector result (costs_at frame.now kind.now column.now) }
{
    let number = frame.grammar.constraints.len() as u32;
    let mut parts = [0u32; 24];
    for place in 0..number {
        parts[place as usize] = frame.cost(number, place + 1, kind, column);
    }
    Ranked::of_parts(parts)
}

/// The same move from a kind, which weighs what its columns cost.
fn ranked_move(
    alloc: Global,
    frame: &Frame<'_>,
    kind: &Kind,
    arc: &TableArc<Count>,
) -> TableArc<Ranked>
    requires fits { FitsFrame frame.now (last_stage (problem_in frame.now)) kind.now }
    requires columns { AreColumnsOf frame.now kind.now arc.now.class }
    ensures { IsRankedMove frame.now kind.now arc.now result }
{
    let column = least_column(alloc, &arc.class);
    TableArc {
        class: arc.class,
        target: arc.target,
        weight: all_costs(frame, kind, &column),
    }
}

/// The same moves from a kind, each of which weighs what its columns cost.
fn ranked_moves(
    alloc: Global,
    frame: &Frame<'_>,
    kind: &Kind,
    arcs: &[TableArc<Count>],
) -> Result<Vec<TableArc<Ranked>>, AllocError>
    requires fits { FitsFrame frame.now (last_stage (problem_in frame.now)) kind.now }
    requires columns { All (λ arc. AreColumnsOf frame.now kind.now arc.class) arcs.now }
    ensures { IfOk result (λ moves. AllZip (IsRankedMove frame.now kind.now) arcs.now moves.items) }
{
    let mut moves = Vec::new(alloc);
    for arc in arcs {
        moves.push(ranked_move(alloc, frame, kind, arc))?;
    }
    Ok(moves)
}

/// The same states, each of whose moves weighs what its columns cost.
fn ranked_states(
    alloc: Global,
    frame: &Frame<'_>,
    found: &StageTable,
) -> Result<Vec<TableState<Ranked>>, AllocError>
    requires { IsWholeTable frame.now found.now.kinds.items (states_of found.now.table) }
    ensures { IfOk result
        (λ states.
        AreRankedStates frame.now found.now.kinds.items (states_of found.now.table) states.items
        (length (states_of found.now.table))) }
{
    let mut states = Vec::new(alloc);
    for state in 0..found.table.len() {
        let kind = found.kinds[state as usize];
        let arcs = ranked_moves(alloc, frame, &kind, found.table.arcs(state))?;
        states.push(TableState {
            accepting: found.table.accepting(state),
            arcs,
        })?;
    }
    Ok(states)
}

/// The table of a single pass: the same states as those of a table that accepts all candidates. Each
/// move weighs what its columns cost under all constraints. Fails only if memory runs out.
pub fn ranked_table(
    alloc: Global,
    frame: &Frame<'_>,
    found: &StageTable,
) -> Result<Table<Ranked>, NoMemory>
    requires { IsWholeTable frame.now found.now.kinds.items (states_of found.now.table) }
    ensures { IfOk result
        (λ table.
        IsRankedTable (problem_in frame.now)
        (names_at frame.now (last_stage (problem_in frame.now)) found.now.kinds.items)
        (states_of table)) }
{
    match ranked_states(alloc, frame, found) {
        Ok(states) => Ok(Table::of_states(states)),
        Err(_) => Err(NoMemory),
    }
}
