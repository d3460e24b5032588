ghost use Rattle.std.specs.Prelude.{IfOk, List, length};
ghost use Rattle.tier_core.specs.Orders.{IsFirst};
ghost use Rattle.arc_table.specs.States.{states_of};
ghost use Rattle.violation.specs.Candidates.{IsOptimal};
ghost use Rattle.violation.specs.Problems.{last_stage};
ghost use Rattle.answer_text.specs.declared.stage.Node.{Node as NodeOf};
ghost use Rattle.answer_text.specs.Right.{IsRightAutomaton};
ghost use Rattle.kind_moves.specs.Frames.{problem_in};
ghost use Rattle.kind_orders.specs.JoinedArcs.{HaveJoinedArcs};
ghost use Rattle.ranked_gen.specs.OptimalParts.{IsOptimalPart};

use crate::staged::Left;
use answer_text::Automaton;
use first_paths::first;
use kind_moves::Frame;
use kind_orders::{automaton_of, ranks};
use std::alloc::Global;
use tier_core::{NoMemory, Timeline};

/// The end of an answer: the first optimal timeline, and the automaton of all.
#[derive(Drop)]
pub(crate) struct Ending {
    pub(crate) example: Timeline,
    pub(crate) automaton: Automaton,
}

/// The end of an answer for a frame, from what accepts its optimal timelines. Fails only if memory
/// runs out.
pub(crate) fn ending_of(alloc: Global, frame: &Frame, left: &Left) -> Result<Ending, NoMemory>
    requires part { (nodes : List NodeOf)
        × IsOptimalPart (problem_in frame.now) (last_stage (problem_in frame.now)) nodes
        (states_of left.now.kept.table) left.now.kept.states.items left.now.order.items }
    ensures example { IfOk result
        (λ ending. IsFirst (IsOptimal (problem_in frame.now)) ending.example) }
    ensures automaton { IfOk result
        (λ ending. (nodes : List NodeOf)
        → IsOptimalPart (problem_in frame.now) (last_stage (problem_in frame.now)) nodes
        (states_of left.now.kept.table) left.now.kept.states.items left.now.order.items
        → IsRightAutomaton (problem_in frame.now) nodes ending.automaton.states.items) }
    ensures joined { IfOk result (λ ending. HaveJoinedArcs ending.automaton.states.items) }
{
    let found = first(alloc, &left.kept.table)?;
    let places = ranks(alloc, &left.order)?;
    let automaton = automaton_of(alloc, &left.kept.table, &left.kept.states, &places)?;
    Ok(Ending {
        example: found.unwrap(),
        automaton,
    })
}
