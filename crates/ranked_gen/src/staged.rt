ghost use Rattle.std.specs.Prelude.{◌≡◌, ◌<◌, ◌≤◌, ◌-◌, ℕ, All, Err, IfOk, ◌↔◌, List, false, length, map};
ghost use Rattle.arc_table.specs.Runs.{Accepts};
ghost use Rattle.arc_table.specs.States.{states_of};
ghost use Rattle.tier_core.specs.declared.sym.Sym.{Sym};
ghost use Rattle.violation.specs.Candidates.{IsOptimalFor};
ghost use Rattle.kind_moves.specs.Frames.{stretches_in, FitsFrame};
ghost use Rattle.tier_core.specs.KindNumbers.{kind_numbered};
ghost use Rattle.kind_tables.specs.StageTables.{IsStageTable};
ghost use Rattle.stage_tables.specs.Kept.{IsKeptTable};
ghost use Rattle.stage_tables.specs.Explored.{names_at};
ghost use Rattle.ranked_gen.specs.Budgets.{IsOver, IsStageWithin};
ghost use Rattle.ranked_gen.specs.KindsLeft.{AreKindsLeft};
ghost use Rattle.ranked_gen.specs.Left.{IsCountedOutcome, weight_number};
ghost use Rattle.violation.specs.Problems.{last_stage};
ghost use Rattle.kind_moves.specs.Frames.{problem_in};

use crate::gen_err::GenErr;
use answer_text::Stage;
use arc_table::Table;
use distances::to_final;
use kind_moves::Frame;
use kind_orders::{order_of_kinds, stage_of};
use prune_best::{Tight, tight};
use stage_tables::{ExploreErr, explore, explore_all, weigh};
use std::alloc::{AllocError, Global};
use tier_core::{Kind, NoMemory};
use weight_law::{Count, UnitWeight, Weight};

/// What a stage leaves of the candidates: the table that accepts them, in which each state has the
/// number of its kind, and the order of these numbers.
#[derive(Drop)]
pub(crate) struct Left {
    pub(crate) kept: Tight,
    pub(crate) order: Vec<u32>,
}

/// A stage: its nodes, the number of its constraint in the violations of what it leaves, what it
/// leaves, and the kinds that the states of this stand for.
#[derive(Drop)]
pub(crate) struct Staged {
    pub(crate) stage: Stage,
    pub(crate) count: u32,
    pub(crate) left: Left,
    pub(crate) kinds: Vec<Kind>,
}

/// The number of a weight that is found, or 0 if there is none.
fn weight_number(weight: Option<Count>) -> u32
    ensures { result ≡ weight_number weight }
{
    match weight {
        None => 0,
        Some(weight) => weight.0,
    }
}

/// The potentials of states: their least weights as numbers.
fn potentials_of(alloc: Global, least: &[Option<Count>]) -> Result<Vec<u32>, AllocError>
    ensures { IfOk result (λ numbers. numbers.items ≡ map weight_number least.now) }
{
    let mut numbers = Vec::new(alloc);
    for weight in least {
        numbers.push(weight_number(*weight))?;
    }
    Ok(numbers)
}

/// The kinds of some numbers. Fails only if memory runs out.
fn kinds_of(alloc: Global, kinds: &[Kind], numbers: &[u32]) -> Result<Vec<Kind>, NoMemory>
    requires { All (λ number. number < length kinds.now) numbers.now }
    ensures { IfOk result (λ found. found.items ≡ map (kind_numbered kinds.now) numbers.now) }
{
    let mut found = Vec::new(alloc);
    for number in numbers {
        if found.push(kinds[*number as usize]).is_err() {
            return Err(NoMemory);
        }
    }
    Ok(found)
}

/// The nodes of a table whose states stand for kinds, one by one, and what its constraint leaves.
/// Fails only if memory runs out.
fn prune(
    alloc: Global,
    frame: &Frame,
    stage: u32,
    kinds: &[Kind],
    table: &Table<Count>,
) -> Result<Staged, NoMemory>
    requires within { stage ≤ last_stage (problem_in frame.now) }
    requires table { IsStageTable (problem_in frame.now) stage
        (names_at frame.now stage kinds.now) (states_of table.now) }
    requires fit { All (FitsFrame frame.now stage) kinds.now }
    ensures staged { IfOk result
        (λ staged.
        IsCountedOutcome (problem_in frame.now) stage staged.stage.nodes.items staged.count
        (states_of staged.left.kept.table) staged.left.kept.states.items staged.left.order.items) }
    ensures kinds { IfOk result
        (λ staged.
        AreKindsLeft frame.now stage (states_of staged.left.kept.table) staged.kinds.items) }
    ensures few { IfOk result (λ staged. length staged.kinds.items ≤ length kinds.now) }
{
    let least = to_final(alloc, table)?;
    let Ok(potentials) = potentials_of(alloc, &least) else {
        return Err(NoMemory);
    };
    let order = order_of_kinds(alloc, &frame.shape, stage, kinds)?;
    let nodes = stage_of(alloc, kinds, &potentials, &order)?;
    let kept = tight(alloc, table, &least)?;
    let left = kinds_of(alloc, kinds, &kept.states)?;
    Ok(Staged {
        stage: nodes,
        count: potentials[0],
        left: Left { kept, order },
        kinds: left,
    })
}

/// Stage 0 of a frame, whose candidates are all. `Budget` occurs exactly when it has more kinds of
/// prefix than the budget, and `NoMemory` only if memory runs out.
pub(crate) fn first_stage(alloc: Global, frame: &Frame, budget: u32) -> Result<Staged, GenErr>
    requires some_budget { 1 ≤ budget }
    requires few { budget ≤ 65536 }
    ensures staged { IfOk result
        (λ staged.
        IsCountedOutcome (problem_in frame.now) 0 staged.stage.nodes.items staged.count
        (states_of staged.left.kept.table) staged.left.kept.states.items staged.left.order.items) }
    ensures kinds { IfOk result
        (λ staged.
        AreKindsLeft frame.now 0 (states_of staged.left.kept.table) staged.kinds.items) }
    ensures few { IfOk result (λ staged. length staged.kinds.items ≤ budget) }
    ensures within { IfOk result (λ staged. IsStageWithin (problem_in frame.now) budget 0) }
    ensures over { (s : ℕ) → result ≡ Err (GenErr.Budget s)
        → (s ≡ 0) × IsOver (problem_in frame.now) budget 0 }
{
    match explore_all(alloc, frame, 0, budget) {
        Ok(found) => {
            prune(alloc, frame, 0, &found.kinds, &found.table).map_err(|_| GenErr::NoMemory)
        }
        Err(ExploreErr::OverBudget) => Err(GenErr::Budget { stage: 0 }),
        Err(ExploreErr::NoMemory) => Err(GenErr::NoMemory),
    }
}

/// Whether a stage tells the phase of one more stretch implication than the stage before.
fn has_new_phase(frame: &Frame, stage: u32) -> bool
    requires some { 1 ≤ stage }
    requires within { stage ≤ last_stage (problem_in frame.now) }
    ensures { (result ≡ false)
        ↔ (stretches_in frame.now stage ≡ stretches_in frame.now (stage - 1)) }
{
    frame.stretch_count(stage) != frame.stretch_count(stage - 1)
}

/// The next stage of a frame, from what the stage before has left, and the kinds that the states of
/// this stand for. If it has no new phase, its kinds are these. `Budget` occurs exactly when it has
/// more kinds of prefix than the budget, and `NoMemory` only if memory runs out.
pub(crate) fn next_stage(
    alloc: Global,
    frame: &Frame,
    stage: u32,
    kept: Table<UnitWeight>,
    kinds: &[Kind],
    budget: u32,
) -> Result<Staged, GenErr>
    requires some { 1 ≤ stage }
    requires within { stage ≤ last_stage (problem_in frame.now) }
    requires kept { IsKeptTable (problem_in frame.now) (stage - 1) (states_of kept) }
    requires accepts { (T : List (List Sym)) → Accepts (states_of kept) T
        ↔ IsOptimalFor (problem_in frame.now) (stage - 1) T }
    requires kinds { AreKindsLeft frame.now (stage - 1) (states_of kept) kinds.now }
    requires few_kinds { length kinds.now ≤ budget }
    requires some_budget { 1 ≤ budget }
    requires few { budget ≤ 65536 }
    ensures staged { IfOk result
        (λ staged.
        IsCountedOutcome (problem_in frame.now) stage staged.stage.nodes.items staged.count
        (states_of staged.left.kept.table) staged.left.kept.states.items staged.left.order.items) }
    ensures kinds { IfOk result
        (λ staged.
        AreKindsLeft frame.now stage (states_of staged.left.kept.table) staged.kinds.items) }
    ensures few { IfOk result (λ staged. length staged.kinds.items ≤ budget) }
    ensures within { IfOk result (λ staged. IsStageWithin (problem_in frame.now) budget stage) }
    ensures over { (s : ℕ) → result ≡ Err (GenErr.Budget s)
        → (s ≡ stage) × IsOver (problem_in frame.now) budget stage }
{
    if !has_new_phase(frame, stage) {
        let Ok(table) = weigh(alloc, frame, stage, kept, kinds) else {
            return Err(GenErr::NoMemory);
        };
        return prune(alloc, frame, stage, kinds, &table).map_err(|_| GenErr::NoMemory);
    }
    match explore(alloc, frame, stage - 1, stage, &kept, budget) {
        Ok(found) => {
            prune(alloc, frame, stage, &found.kinds, &found.table).map_err(|_| GenErr::NoMemory)
        }
        Err(ExploreErr::OverBudget) => Err(GenErr::Budget { stage }),
        Err(ExploreErr::NoMemory) => Err(GenErr::NoMemory),
    }
}
