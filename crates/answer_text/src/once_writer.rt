ghost use Rattle.std.specs.Prelude.{◌≡◌, ◌≤◌, ◌++◌, map};
ghost use Rattle.outside.specs.Writers.{Puts, Pushes};
ghost use Rattle.answer_text.specs.OnceText.{nodes_lines, once_head_lines, once_node_line, once_text, once_widths_of};
ghost use Rattle.answer_text.specs.Text.{line, lines_text};

use crate::automaton_writer::push_automaton;
use crate::kind::push_kind;
use crate::number::push_numbers;
use crate::once_answer::{OnceAnswer, OnceNode};
use crate::put::{push_counts_line, push_timeline_line};
use crate::widths::free_count;
use outside::{OutBuffer, Sink, WriteErr, push_number};
use tier_core::Shape;

/// The number of constraints.
fn constraint_count(shape: &Shape) -> usize
    ensures value { result ≡ (once_widths_of shape.now).constraints }
    ensures few { result ≤ 24 }
{
    shape.phases.len() - 1
}

/// The number of constraints that are stretch implications.
fn stretch_count(shape: &Shape) -> usize
    ensures value { result ≡ (once_widths_of shape.now).stretches }
    ensures few { result ≤ 24 }
{
    shape.phases[constraint_count(shape)] as usize
}

/// Appends the line of a node.
fn push_once_node<O: Sink>(
    out: &mut OutBuffer,
    sink: &mut O,
    shape: &Shape,
    node: &OnceNode,
) -> Result<(), WriteErr>
    ensures { Pushes O.Sink sink.old sink.new out.old out.new
        (line (once_node_line (once_widths_of shape.now) node.now)) result }
{
    let free = free_count(shape);
    let stretches = stretch_count(shape);
    let constraints = constraint_count(shape);
    out.push(sink, b"node ")?;
    push_kind(out, sink, &node.kind, free, stretches)?;
    push_numbers(out, sink, &node.potential.parts()[..constraints])?;
    out.push(sink, b"\n")
}

/// Appends the lines of nodes.
fn push_each_node<O: Sink>(
    out: &mut OutBuffer,
    sink: &mut O,
    shape: &Shape,
    nodes: &[OnceNode],
) -> Result<(), WriteErr>
    ensures { Pushes O.Sink sink.old sink.new out.old out.new
        (lines_text (map (once_node_line (once_widths_of shape.now)) nodes.now)) result }
{
    for node in nodes {
        push_once_node(out, sink, shape, node)?;
    }
    Ok(())
}

/// Appends the line that says how many nodes there are, and the lines of the nodes.
fn push_once_nodes<O: Sink>(
    out: &mut OutBuffer,
    sink: &mut O,
    shape: &Shape,
    nodes: &[OnceNode],
) -> Result<(), WriteErr>
    ensures { Pushes O.Sink sink.old sink.new out.old out.new
        (lines_text (nodes_lines (once_widths_of shape.now) nodes.now)) result }
{
    push_number(out, sink, b"nodes ", nodes.len())?;
    out.push(sink, b"\n")?;
    push_each_node(out, sink, shape, nodes)
}

/// Appends the lines before the nodes.
fn push_once_head<O: Sink>(
    out: &mut OutBuffer,
    sink: &mut O,
    answer: &OnceAnswer,
) -> Result<(), WriteErr>
    ensures { Pushes O.Sink sink.old sink.new out.old out.new
        (lines_text (once_head_lines answer.now)) result }
{
    out.push(sink, b"once 1\n")?;
    push_timeline_line(out, sink, b"form ", &answer.form)?;
    push_counts_line(out, sink, &answer.counts)?;
    push_timeline_line(out, sink, b"example ", &answer.example)
}

/// Appends the lines of the answer of a single pass.
fn push_once_lines<O: Sink>(
    out: &mut OutBuffer,
    sink: &mut O,
    shape: &Shape,
    answer: &OnceAnswer,
) -> Result<(), WriteErr>
    ensures { Pushes O.Sink sink.old sink.new out.old out.new
        (once_text (once_widths_of shape.now) answer.now) result }
{
    push_once_head(out, sink, answer)?;
    push_once_nodes(out, sink, shape, &answer.nodes)?;
    push_automaton(out, sink, &answer.automaton.states)?;
    out.push(sink, b"end\n")
}

/// Writes the text of the answer of a single pass. It takes no memory beyond what the sink takes in
/// its writes.
///
/// A kind is written over all free tiers and all stretch implications of the shape, and bits beyond
/// these are not written. A potential is written with one number for each constraint.
///
/// If writing is refused, the sink has taken a front of the text. `Failed` occurs only if the sink's
/// count of faults rose.
pub fn put_once<O: Sink>(sink: &mut O, shape: &Shape, answer: &OnceAnswer) -> Result<(), WriteErr>
    ensures { Puts O.Sink sink.old sink.new
        (once_text (once_widths_of shape.now) answer.now) result }
{
    let mut out = OutBuffer::new();
    push_once_lines(&mut out, sink, shape, answer)?;
    out.flush(sink)
}
