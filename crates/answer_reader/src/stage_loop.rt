ghost use Rattle.std.specs.Prelude.{◌≡◌, ◌<◌, ◌≤◌, ◌++◌, ◌∷◌, ◌&&◌, [], not, true, false, codes, Ok, length, map, IfOk, OnOk, All};
ghost use Rattle.answer_text.specs.Readable.{AreReadableStages, IsReadableStage, last_nodes};
ghost use Rattle.answer_reader.specs.Cuts.{begins};
ghost use Rattle.answer_reader.specs.Left.{Continues};
ghost use Rattle.answer_reader.specs.Stages.{behind_stages, is_empty, last_count, stages_from, stages_read, with_nodes};
ghost use Rattle.answer_text.specs.Values.{node_value, stage_values};
ghost use Rattle.answer_reader.specs.Within.{IsNodeWithin};

use crate::answer_err::AnswerErr;
use crate::lines::Lines;
use crate::stages::{read_automaton_line, read_node, read_stage_line};
use answer_text::{Node, Stage};
use std::alloc::Global;
use tier_core::Shape;

/// Reads the nodes of the stage after these; there are `count`.
fn read_nodes(
    alloc: Global,
    lines: &mut Lines<'_>,
    shape: &Shape,
    columns: u32,
    stages: &[Stage],
    count: u32,
) -> Result<Vec<Node>, AnswerErr>
    requires columns { columns ≤ 64 }
    requires there { length stages.now < length shape.now.phases.items }
    ensures goes_on { Continues
        (stages_from shape.now columns (with_nodes (stage_values shape.now 0 stages.now) count []))
        (λ nodes. stages_from shape.now columns
        (behind_stages (stage_values shape.now 0 stages.now ++ map
        (node_value shape.now (length stages.now)) nodes.items ∷ [])))
        lines.old lines.new result }
    ensures within { IfOk result (λ nodes. All
        (IsNodeWithin shape.now columns (length stages.now)) nodes.items) }
    ensures size { IfOk result (λ nodes. length nodes.items ≡ count) }
    ensures no_longer { OnOk result (length lines.new.rest.now ≤ length lines.old.rest.now) }
{
    let mut nodes = Vec::new(alloc);
    for _ in 0..count {
        let node = read_node(lines, shape, columns, stages.len() as u32, &nodes)?;
        nodes.push(node)?;
    }
    Ok(nodes)
}

/// Whether the line of the automaton comes next. It follows at least one stage.
fn is_automaton(lines: &Lines<'_>, stages: &[Stage]) -> bool
    ensures { result ≡ (not (is_empty stages.now) && begins (codes "automaton ")
        lines.now.rest.now) }
{
    !stages.is_empty() && lines.begins(b"automaton ")
}

/// Reads the stage that follows these.
fn read_stage(
    alloc: Global,
    lines: &mut Lines<'_>,
    shape: &Shape,
    columns: u32,
    stages: &[Stage],
) -> Result<Stage, AnswerErr>
    requires columns { columns ≤ 64 }
    requires few { length stages.now ≤ length shape.now.phases.items }
    requires other { (not (is_empty stages.now) && begins (codes "automaton ") lines.old.rest.now)
        ≡ false }
    ensures goes_on { Continues
        (stages_from shape.now columns (behind_stages (stage_values shape.now 0 stages.now)))
        (λ stage. stages_from shape.now columns
        (behind_stages (stage_values shape.now 0 stages.now ++ map
        (node_value shape.now (length stages.now)) stage.nodes.items ∷ [])))
        lines.old lines.new result }
    ensures readable { IfOk result
        (λ stage. IsReadableStage shape.now (length stages.now) stage.nodes.items) }
    ensures there { OnOk result (length stages.now < length shape.now.phases.items) }
    ensures shorter { OnOk result (length lines.new.rest.now < length lines.old.rest.now) }
{
    let count = read_stage_line(lines, shape.phases.len() as u32, stages.len() as u32)?;
    let nodes = read_nodes(alloc, lines, shape, columns, stages, count)?;
    Ok(Stage { nodes })
}

/// How many nodes the last stage has.
pub(crate) fn last_count(shape: &Shape, stages: &[Stage]) -> u32
    requires { AreReadableStages shape.now stages.now }
    ensures nodes { result ≡ length (last_nodes stages.now) }
    ensures few { result ≤ 65536 }
{
    match stages.last() {
        Some(stage) => stage.nodes.len() as u32,
        None => 0,
    }
}

/// The stages of a text, and how many states follow.
#[derive(Drop)]
pub(crate) struct StagesFound {
    pub stages: Vec<Stage>,
    pub states: u32,
}

/// Reads the line of the automaton that follows these stages: how many states there are.
fn read_state_count(
    lines: &mut Lines<'_>,
    shape: &Shape,
    stages: &[Stage],
    columns: u32,
) -> Result<u32, AnswerErr>
    requires readable { AreReadableStages shape.now stages.now }
    requires here { (not (is_empty stages.now) && begins (codes "automaton ") lines.old.rest.now)
        ≡ true }
    ensures goes_on { Continues
        (stages_from shape.now columns (behind_stages (stage_values shape.now 0 stages.now)))
        (λ states n left. stages_read (stage_values shape.now 0 stages.now) n left states)
        lines.old lines.new result }
    ensures few { IfOk result (λ states. states ≤ length (last_nodes stages.now)) }
{
    read_automaton_line(lines, last_count(shape, stages))
}

/// Reads the lines of the stages, for a form with this many columns, and the line of the automaton
/// that follows them.
pub(crate) fn read_stages(
    alloc: Global,
    lines: &mut Lines<'_>,
    shape: &Shape,
    columns: u32,
) -> Result<StagesFound, AnswerErr>
    requires { columns ≤ 64 }
    ensures goes_on { Continues
        (stages_from shape.now columns (behind_stages []))
        (λ found n left. stages_read (stage_values shape.now 0 found.stages.items) n left
        found.states)
        lines.old lines.new result }
    ensures few { IfOk result (λ found. length found.stages.items ≤ length shape.now.phases.items) }
    ensures readable { IfOk result (λ found. AreReadableStages shape.now found.stages.items) }
    ensures states { IfOk result (λ found. found.states ≤ length (last_nodes found.stages.items)) }
{
    let mut stages = Vec::new(alloc);
    'reading: while !is_automaton(lines, &stages) {
        let stage = read_stage(alloc, lines, shape, columns, &stages)?;
        stages.push(stage)?;
    }
    let states = read_state_count(lines, shape, &stages, columns)?;
    Ok(StagesFound { stages, states })
}
