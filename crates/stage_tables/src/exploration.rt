ghost use Rattle.std.specs.Prelude.{◌≡◌, ◌≤◌, length, IfOk, IfErr};
ghost use Rattle.arc_table.specs.States.{states_of};
ghost use Rattle.arc_table.specs.Runs.{Accepts};
ghost use Rattle.kind_moves.specs.Frames.{problem_in};
ghost use Rattle.stage_tables.specs.Kept.{IsKeptTable};
ghost use Rattle.stage_tables.specs.Explored.{IsExplored, IsComplete, HasMoreKinds};
ghost use Rattle.stage_tables.specs.Listed.{AreTaken};
ghost use Rattle.stage_tables.specs.Tested.{IsLeftBefore};
ghost use Rattle.stage_tables.specs.Exploring.{IsFoundWithin, IsFoundBeyond, IsStageFound, IsTooMuchFound};
ghost use Rattle.violation.specs.Candidates.{IsCandidate};
ghost use Rattle.violation.specs.Problems.{last_stage};

use crate::exploring::Exploring;
use crate::listed::{Listed, ROOM, entry_at, number_of};
use crate::stage_table::{ExploreErr, StageTable};
use crate::whole::whole_table;
use arc_table::{Table, TableState};
use indexmap::IndexMap;
use kind_moves::Frame;
use std::alloc::Global;
use weight_law::{Count, UnitWeight};

impl Exploring<'_> {
    ghost use Rattle.std.specs.Prelude.{◌<◌};

    /// The place of the last phase's bit in kinds, if the kept table is what the stage before has
    /// left.
    fn bit(&self) -> u32 {
        if self.before < self.stage {
            self.frame.stretch_count(self.before)
        } else {
            0
        }
    }

    /// The start, listed over state 0.
    fn start(&self, alloc: Global) -> Result<Listed, ExploreErr>
        requires budget { 1 ≤ self.now.budget }
        ensures found { IfOk result (IsFoundWithin self.now) }
        ensures one { IfOk result (λ listed. length listed.kinds.entries ≡ 1) }
        ensures within { IfErr result (λ e. e ≡ ExploreErr.OverBudget → ⊥) }
    {
        let Ok(recent) = vec![in alloc; 0; ROOM] else {
            return Err(ExploreErr::NoMemory);
        };
        let Ok(over) = vec![in alloc; 0; 2 * self.kept.len() as usize] else {
            return Err(ExploreErr::NoMemory);
        };
        let mut listed = Listed {
            kinds: IndexMap::new(alloc),
            recent,
            over,
            bit: self.bit(),
        };
        let _start = number_of(&mut listed, self.frame.start(), 0, self.budget)?;
        Ok(listed)
    }

    /// The new states, of the kinds that are listed while they are made.
    fn states(
        &self,
        alloc: Global,
        listed: &mut Listed,
    ) -> Result<Vec<TableState<Count>>, ExploreErr>
        requires found { IsFoundWithin self.now listed.old }
        requires one { length listed.old.kinds.entries ≡ 1 }
        requires left { IsLeftBefore self.now }
        ensures found { IfOk result (λ _. IsFoundWithin self.now listed.new) }
        ensures taken { IfOk result
            (λ states.
            AreTaken self.now.frame.now self.now.first self.now.stage
            (states_of self.now.kept.now) listed.new.kinds.entries states.items) }
        ensures each { IfOk result
            (λ states. length states.items ≡ length listed.new.kinds.entries) }
        ensures beyond { IfErr result
            (λ e. e ≡ ExploreErr.OverBudget → IsFoundBeyond self.now listed.new) }
    {
        let mut states = Vec::new(alloc);
        'making: while let Some((kind, state)) = entry_at(listed, states.len()) {
            let arcs = self.new_moves(alloc, state, &kind, listed)?;
            let made = TableState {
                accepting: self.frame.at_end(&kind),
                arcs,
            };
            if states.push(made).is_err() {
                return Err(ExploreErr::NoMemory);
            }
        }
        Ok(states)
    }

    /// All kinds, and the table of their states.
    fn all_states(&self, alloc: Global) -> Result<StageTable, ExploreErr>
        requires some { 1 ≤ self.now.budget }
        requires few { self.now.budget ≤ 65536 }
        requires left { IsLeftBefore self.now }
        ensures found { IfOk result
            (λ found. IsStageFound self.now found.kinds.items (states_of found.table)) }
        ensures few { IfOk result (λ found. length found.kinds.items ≤ self.now.budget) }
        ensures over { IfErr result (λ e. e ≡ ExploreErr.OverBudget → IsTooMuchFound self.now) }
    {
        let mut listed = self.start(alloc)?;
        let states = self.states(alloc, &mut listed)?;
        let Ok(kinds) = Vec::from_slice(alloc, listed.kinds.keys().as_slice()) else {
            return Err(ExploreErr::NoMemory);
        };
        Ok(StageTable {
            kinds,
            table: Table::of_states(states),
        })
    }
}

/// Explores what the first `before` constraints have left, under the first `stage` constraints. The
/// resulting table accepts the same timelines. Its states are the kinds that their prefixes have
/// under these constraints, in the order in which they are found, and its moves weigh what they cost
/// under the last one, and nothing if there is none.
///
/// Fails with `OverBudget` if there are more kinds than the budget, and otherwise only if memory
/// runs out.
pub fn explore(
    alloc: Global,
    frame: &Frame<'_>,
    before: u32,
    stage: u32,
    kept: &Table<UnitWeight>,
    budget: u32,
) -> Result<StageTable, ExploreErr>
    requires further { before ≤ stage }
    requires stage { stage ≤ last_stage (problem_in frame.now) }
    requires kept { IsKeptTable (problem_in frame.now) before (states_of kept.now) }
    requires some_budget { 1 ≤ budget }
    requires budget { budget ≤ 65536 }
    ensures explored { IfOk result
        (λ found.
        IsExplored frame.now stage (states_of kept.now) found.kinds.items
        (states_of found.table)) }
    ensures few { IfOk result (λ found. length found.kinds.items ≤ budget) }
    ensures over { IfErr result
        (λ e. e ≡ ExploreErr.OverBudget
        → HasMoreKinds frame.now stage (Accepts (states_of kept.now)) budget) }
{
    let exploring = Exploring {
        frame,
        before,
        first: stage,
        stage,
        kept,
        budget,
    };
    exploring.all_states(alloc)
}

/// Explores all candidates under the first `stage` constraints. The resulting table accepts exactly
/// the candidates. Its states are the kinds that their prefixes have under these constraints, in the
/// order in which they are found. All columns of a move cost the same under each of them, and the
/// move weighs what they cost under the last one, and nothing if there is none.
///
/// Fails with `OverBudget` if there are more kinds than the budget, and otherwise only if memory
/// runs out.
pub fn explore_all(
    alloc: Global,
    frame: &Frame<'_>,
    stage: u32,
    budget: u32,
) -> Result<StageTable, ExploreErr>
    requires stage { stage ≤ last_stage (problem_in frame.now) }
    requires some_budget { 1 ≤ budget }
    requires budget { budget ≤ 65536 }
    ensures complete { IfOk result
        (λ found. IsComplete frame.now stage found.kinds.items (states_of found.table)) }
    ensures few { IfOk result (λ found. length found.kinds.items ≤ budget) }
    ensures over { IfErr result
        (λ e. e ≡ ExploreErr.OverBudget
        → HasMoreKinds frame.now stage (IsCandidate (problem_in frame.now)) budget) }
{
    let Ok(whole) = whole_table(alloc, frame) else {
        return Err(ExploreErr::NoMemory);
    };
    let exploring = Exploring {
        frame,
        before: stage,
        first: 1,
        stage,
        kept: &whole,
        budget,
    };
    exploring.all_states(alloc)
}
