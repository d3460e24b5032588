ghost use Rattle.std.specs.Prelude.{◌<◌, ◌≤◌, map, length};
ghost use Rattle.outside.specs.Writers.{Pushes};
ghost use Rattle.answer_text.specs.Shape.{widths_of};
ghost use Rattle.answer_text.specs.Text.{line, lines_text, node_line, stage_lines, stages_lines};

use crate::kind::push_kind;
use crate::stage::{Node, Stage};
use crate::widths::free_count;
use outside::{OutBuffer, Sink, WriteErr, push_number};
use tier_core::Shape;

/// Appends the line of a node.
fn push_node<O: Sink>(
    out: &mut OutBuffer,
    sink: &mut O,
    node: &Node,
    free: usize,
    stretches: usize,
) -> Result<(), WriteErr>
    requires few_free { free ≤ 12 }
    requires few_stretches { stretches ≤ 24 }
    ensures { Pushes O.Sink sink.old sink.new out.old out.new
        (line (node_line free stretches node.now)) result }
{
    out.push(sink, b"node ")?;
    push_kind(out, sink, &node.kind, free, stretches)?;
    push_number(out, sink, b" ", node.potential as usize)?;
    out.push(sink, b"\n")
}

/// Appends the lines of nodes.
fn push_nodes<O: Sink>(
    out: &mut OutBuffer,
    sink: &mut O,
    nodes: &[Node],
    free: usize,
    stretches: usize,
) -> Result<(), WriteErr>
    requires few_free { free ≤ 12 }
    requires few_stretches { stretches ≤ 24 }
    ensures { Pushes O.Sink sink.old sink.new out.old out.new
        (lines_text (map (node_line free stretches) nodes.now)) result }
{
    for node in nodes {
        push_node(out, sink, node, free, stretches)?;
    }
    Ok(())
}

/// Appends the lines of a stage.
fn push_stage<O: Sink>(
    out: &mut OutBuffer,
    sink: &mut O,
    number: usize,
    nodes: &[Node],
    free: usize,
    stretches: usize,
) -> Result<(), WriteErr>
    requires few_free { free ≤ 12 }
    requires few_stretches { stretches ≤ 24 }
    ensures { Pushes O.Sink sink.old sink.new out.old out.new
        (lines_text (stage_lines free stretches number nodes.now)) result }
{
    push_number(out, sink, b"stage ", number)?;
    push_number(out, sink, b" ", nodes.len())?;
    out.push(sink, b"\n")?;
    push_nodes(out, sink, nodes, free, stretches)
}

/// Appends the lines of the stages, which are numbered from 0. The shape has a number of stretch
/// implications for each.
pub fn push_stages<O: Sink>(
    out: &mut OutBuffer,
    sink: &mut O,
    shape: &Shape,
    stages: &[Stage],
) -> Result<(), WriteErr>
    requires { length stages.now ≤ length shape.now.phases.items }
    ensures { Pushes O.Sink sink.old sink.new out.old out.new
        (lines_text (stages_lines (widths_of shape.now) 0 stages.now)) result }
{
    let free = free_count(shape);
    for (number, stage) in stages.iter().enumerate() {
        push_stage(
            out,
            sink,
            number,
            &stage.nodes,
            free,
            shape.phases[number] as usize,
        )?;
    }
    Ok(())
}
