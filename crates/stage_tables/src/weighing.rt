ghost use Rattle.std.specs.Prelude.{◌≡◌, ◌≤◌, length, All, IfOk, IsTrue, OnOk};
ghost use Rattle.arc_table.specs.Moves.{moves_at};
ghost use Rattle.arc_table.specs.States.{states_of};
ghost use Rattle.kind_moves.specs.Frames.{problem_in, FitsFrame};
ghost use Rattle.symbol_class.specs.Held.{once_if};
ghost use Rattle.symbol_class.specs.Parts.{differs};
ghost use Rattle.tier_core.specs.Classes.{sets_of, has};
ghost use Rattle.tier_core.specs.Filled.{is_filled};
ghost use Rattle.violation.specs.Problems.{last_stage};
ghost use Rattle.stage_tables.specs.Explored.{names_at, IsExplored};
ghost use Rattle.stage_tables.specs.Kept.{AreKeptByKinds};
ghost use Rattle.stage_tables.specs.Weighing.{cost_from, AddsMoves, AddsWeighed, AreWeighedMoves, AreWeighedStates};

use arc_table::{Table, TableArc, TableState};
use kind_moves::Frame;
use std::alloc::{AllocError, Global};
use symbol_class::{Difference, Shares, push_inside, push_outside, share_of};
use tier_core::{Class, Kind, NoMemory};
use weight_law::{Count, UnitWeight};

/// Puts moves on classes at the end of others, all to one state and of one weight.
fn push_moves(
    moves: &mut Vec<TableArc<Count>>,
    target: u32,
    weight: u32,
    classes: &[Class],
) -> Result<(), AllocError>
    ensures { OnOk result
        (AddsMoves target weight classes.now moves.old.items moves.new.items) }
{
    for class in classes {
        moves.push(TableArc {
            class: *class,
            target,
            weight: Count(weight),
        })?;
    }
    Ok(())
}

/// Puts the parts of a kept move at the end of others: on its columns that do not pass a test, and
/// on those that do.
fn push_sides(
    alloc: Global,
    arc: &TableArc<UnitWeight>,
    test: &Difference,
    moves: &mut Vec<TableArc<Count>>,
) -> Result<(), AllocError>
    requires { length (sets_of arc.now.class) ≡ length (sets_of test.now.within) }
    ensures { OnOk result
        (AddsWeighed (λ column. once_if (differs test.now column)) arc.now
        (λ column. once_if (has arc.now.class column)) moves.old.items moves.new.items) }
{
    let mut outside = Vec::new(alloc);
    push_outside(&mut outside, &arc.class, test)?;
    push_moves(moves, arc.target, 0, &outside)?;
    let mut inside = Vec::new(alloc);
    push_inside(&mut inside, &arc.class, test)?;
    push_moves(moves, arc.target, 1, &inside)?;
    Ok(())
}

/// Puts the parts of a kept move at the end of others. Each weighs 1 if its columns pass a test, and
/// 0 if they do not.
fn push_weighed(
    alloc: Global,
    arc: &TableArc<UnitWeight>,
    test: &Difference,
    moves: &mut Vec<TableArc<Count>>,
) -> Result<(), AllocError>
    requires width { length (sets_of arc.now.class) ≡ length (sets_of test.now.within) }
    requires filled { IsTrue (is_filled arc.now.class) }
    ensures { OnOk result
        (AddsWeighed (λ column. once_if (differs test.now column)) arc.now
        (λ column. once_if (has arc.now.class column)) moves.old.items moves.new.items) }
{
    match share_of(&arc.class, test) {
        Shares::Nothing => push_moves(moves, arc.target, 0, &[arc.class]),
        Shares::Everything => push_moves(moves, arc.target, 1, &[arc.class]),
        Shares::Part => push_sides(alloc, arc, test, moves),
    }
}

/// Kept moves in parts, each of which weighs 1 if its columns pass a test, and 0 if they do not.
fn weighed_moves(
    alloc: Global,
    arcs: &[TableArc<UnitWeight>],
    test: &Difference,
) -> Result<Vec<TableArc<Count>>, AllocError>
    requires width { All
        (λ arc. length (sets_of arc.class) ≡ length (sets_of test.now.within)) arcs.now }
    requires filled { All (λ arc. IsTrue (is_filled arc.class)) arcs.now }
    ensures { IfOk result
        (λ moves. AreWeighedMoves (λ column. once_if (differs test.now column))
        arcs.now moves.items) }
{
    let mut moves = Vec::with_capacity(alloc, arcs.len())?;
    for arc in arcs {
        push_weighed(alloc, arc, test, &mut moves)?;
    }
    Ok(moves)
}

/// The states of a kept table, each of whose moves is parted by what its columns cost, and weighs
/// this.
fn weighed_states(
    alloc: Global,
    frame: &Frame<'_>,
    stage: u32,
    kept: &Table<UnitWeight>,
    kinds: &[Kind],
) -> Result<Vec<TableState<Count>>, AllocError>
    requires some { 1 ≤ stage }
    requires stage { stage ≤ last_stage (problem_in frame.now) }
    requires kept { AreKeptByKinds (problem_in frame.now) stage
        (names_at frame.now stage kinds.now) (states_of kept.now) }
    requires fit { All (FitsFrame frame.now stage) kinds.now }
    ensures { IfOk result
        (λ states.
        AreWeighedStates (cost_from frame.now stage kinds.now) (states_of kept.now) states.items
        (length (states_of kept.now))) }
{
    let mut states = Vec::with_capacity(alloc, kept.len() as usize)?;
    for state in 0..kept.len() {
        let test = frame.cost_test(stage, stage, &kinds[state as usize]);
        let arcs = weighed_moves(alloc, kept.arcs(state), &test)?;
        states.push(TableState {
            accepting: kept.accepting(state),
            arcs,
        })?;
    }
    Ok(states)
}

/// Weighs what the constraints before have left, under the constraint of a stage that tells no more
/// kinds apart than these did: `kinds` are those of the kept states, one by one. The resulting table
/// has the same states and accepts the same timelines. Its moves are the kept ones, parted by what
/// their columns cost under the stage's constraint, and each weighs this. The kept table is let go.
/// Fails only if memory runs out.
pub fn weigh(
    alloc: Global,
    frame: &Frame<'_>,
    stage: u32,
    kept: Table<UnitWeight>,
    kinds: &[Kind],
) -> Result<Table<Count>, NoMemory>
    requires some { 1 ≤ stage }
    requires stage { stage ≤ last_stage (problem_in frame.now) }
    requires kept { AreKeptByKinds (problem_in frame.now) stage
        (names_at frame.now stage kinds.now) (states_of kept) }
    requires fit { All (FitsFrame frame.now stage) kinds.now }
    ensures { IfOk result
        (λ table. IsExplored frame.now stage (states_of kept) kinds.now (states_of table)) }
{
    match weighed_states(alloc, frame, stage, &kept, kinds) {
        Ok(states) => Ok(Table::of_states(states)),
        Err(_) => Err(NoMemory),
    }
}
