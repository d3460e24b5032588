ghost use Rattle.std.specs.Prelude.{◌≡◌, ◌<◌, ◌≤◌, ℕ, length, map, Ok, Err, MatchResult, IfOk, OnOk, All};
ghost use Rattle.answer_reader.specs.Left.{Takes};
ghost use Rattle.answer_reader.specs.Lines.{automaton_of, stage_of};
ghost use Rattle.answer_reader.specs.Stages.{next_node};
ghost use Rattle.answer_text.specs.Values.{node_value};
ghost use Rattle.answer_reader.specs.Within.{IsNodeWithin};

use crate::answer_err::{AnswerCause, AnswerErr};
use crate::line_forms::{automaton_of, stage_of};
use crate::lines::Lines;
use crate::node::node_of;
use crate::on_line::on_line;
use crate::order::node_follows;
use answer_text::Node;
use tier_core::Shape;

/// The node on a line, after those of its stage.
fn next_node(
    shape: &Shape,
    columns: u32,
    stage: u32,
    nodes: &[Node],
    line: &[u8],
) -> Result<Node, AnswerCause>
    requires columns { columns ≤ 64 }
    requires stage { stage < length shape.now.phases.items }
    requires within { All (IsNodeWithin shape.now columns stage) nodes.now }
    ensures said { MatchResult result
        (λ node. next_node shape.now columns stage (map (node_value shape.now stage) nodes.now)
        line.now ≡ Ok (node_value shape.now stage node))
        (λ cause. next_node shape.now columns stage (map (node_value shape.now stage) nodes.now)
        line.now ≡ Err cause) }
    ensures within { IfOk result (IsNodeWithin shape.now columns stage) }
{
    let node = node_of(shape, columns, stage, line)?;
    if !node_follows(shape, columns, stage, nodes, &node) {
        return Err(AnswerCause::BadOrder);
    }
    Ok(node)
}

/// Reads the line of a node, after those of its stage: its kind fits the shape, its place is within a
/// form with this many columns, and it comes strictly after the node before it.
pub fn read_node(
    lines: &mut Lines<'_>,
    shape: &Shape,
    columns: u32,
    stage: u32,
    nodes: &[Node],
) -> Result<Node, AnswerErr>
    requires columns { columns ≤ 64 }
    requires stage { stage < length shape.now.phases.items }
    requires within { All (IsNodeWithin shape.now columns stage) nodes.now }
    ensures takes { Takes (next_node shape.now columns stage
        (map (node_value shape.now stage) nodes.now)) (node_value shape.now stage) lines.old
        lines.new result }
    ensures within { IfOk result (IsNodeWithin shape.now columns stage) }
    ensures shorter { OnOk result (length lines.new.rest.now < length lines.old.rest.now) }
{
    let number = lines.number;
    let line = lines.next_line()?;
    on_line(number, next_node(shape, columns, stage, nodes, line))
}

/// Reads the line of a stage, which has the next number: how many nodes it has.
pub fn read_stage_line(lines: &mut Lines<'_>, stages: u32, next: u32) -> Result<u32, AnswerErr>
    ensures takes { Takes (stage_of stages next) (λ (n : ℕ). n) lines.old lines.new result }
    ensures few { IfOk result (λ n. n ≤ 65536) }
    ensures there { OnOk result (next < stages) }
    ensures shorter { OnOk result (length lines.new.rest.now < length lines.old.rest.now) }
{
    let number = lines.number;
    let line = lines.next_line()?;
    on_line(number, stage_of(stages, next, line))
}

/// Reads the line of the automaton: how many states it has.
pub fn read_automaton_line(lines: &mut Lines<'_>, nodes: u32) -> Result<u32, AnswerErr>
    requires { nodes ≤ 65536 }
    ensures takes { Takes (automaton_of nodes) (λ (n : ℕ). n) lines.old lines.new result }
    ensures few { IfOk result (λ n. n ≤ nodes) }
{
    let number = lines.number;
    let line = lines.next_line()?;
    on_line(number, automaton_of(nodes, line))
}
