ghost use Rattle.std.specs.Prelude.{◌≡◌, [], ◌∷◌, ◌++◌, codes, true};
ghost use Rattle.outside.specs.Writers.{Pushes};
ghost use Rattle.answer_text.specs.Shape.{widths_of};
ghost use Rattle.cert_check.specs.declared.fault.Fault.TheVariants.{ArcsDiffer, ArcsTwice, NotClosed};
ghost use Rattle.verdict_text.specs.VerdictText.{fault_text, is_in_stage};

use crate::numbers::{mark_number, push_numbered, push_target};
use crate::stretches::stretch_count;
use crate::symbols::push_column_after_space;
use answer_text::{free_count, push_kind};
use cert_check::Fault;
use outside::{OutBuffer, Sink, WriteErr};
use tier_core::{Column, Kind, Shape};

/// Appends the line of a kind that is not listed.
fn push_closed<O: Sink>(
    out: &mut OutBuffer,
    sink: &mut O,
    shape: &Shape,
    stage: u32,
    node: u32,
    missing: &Kind,
) -> Result<(), WriteErr>
    ensures { Pushes O.Sink sink.old sink.new out.old out.new
        (fault_text (widths_of shape.now) (NotClosed stage node missing.now)) result }
{
    push_numbered(out, sink, b"closed", &[stage, node])?;
    out.push(sink, b" ")?;
    push_kind(
        out,
        sink,
        missing,
        free_count(shape),
        stretch_count(shape, stage),
    )
}

/// Appends the line of a column that is in two arcs.
fn push_twice<O: Sink>(
    out: &mut OutBuffer,
    sink: &mut O,
    shape: &Shape,
    state: u32,
    column: &Column,
) -> Result<(), WriteErr>
    ensures { Pushes O.Sink sink.old sink.new out.old out.new
        (fault_text (widths_of shape.now) (ArcsTwice state column.now)) result }
{
    push_numbered(out, sink, b"twice", &[state])?;
    push_column_after_space(out, sink, column)
}

/// Appends the line of a column on which the targets differ.
fn push_arcs<O: Sink>(
    out: &mut OutBuffer,
    sink: &mut O,
    shape: &Shape,
    state: u32,
    column: &Column,
    listed: Option<u32>,
    kept: Option<u32>,
) -> Result<(), WriteErr>
    ensures { Pushes O.Sink sink.old sink.new out.old out.new
        (fault_text (widths_of shape.now) (ArcsDiffer state column.now listed kept)) result }
{
    push_numbered(out, sink, b"arcs", &[state])?;
    push_column_after_space(out, sink, column)?;
    push_target(out, sink, listed)?;
    push_target(out, sink, kept)
}

/// Appends the line of a fault in a stage.
fn push_stage_fault<O: Sink>(
    out: &mut OutBuffer,
    sink: &mut O,
    shape: &Shape,
    fault: &Fault,
) -> Result<(), WriteErr>
    requires { is_in_stage fault.now ≡ true }
    ensures { Pushes O.Sink sink.old sink.new out.old out.new
        (fault_text (widths_of shape.now) fault.now) result }
{
    match fault {
        Fault::NodeWrong { stage, node } => push_numbered(out, sink, b"node", &[*stage, *node]),
        Fault::StartMissing { stage } => push_numbered(out, sink, b"start", &[*stage]),
        Fault::FinalPotential {
            stage,
            node,
            listed,
        } => push_numbered(out, sink, b"final-potential", &[*stage, *node, *listed]),
        Fault::NotClosed {
            stage,
            node,
            missing,
        } => push_closed(out, sink, shape, *stage, *node, missing),
        Fault::Potential {
            stage,
            node,
            listed,
            allowed,
        } => push_numbered(out, sink, b"potential", &[*stage, *node, *listed, *allowed]),
        Fault::StartPotential {
            stage,
            listed,
            count,
        } => push_numbered(out, sink, b"start-potential", &[*stage, *listed, *count]),
        _ => unreachable!(),
    }
}

/// Appends the line of a fault, without the `No ` at its front and the end of the line.
pub(crate) fn push_fault<O: Sink>(
    out: &mut OutBuffer,
    sink: &mut O,
    shape: &Shape,
    fault: &Fault,
) -> Result<(), WriteErr>
    ensures { Pushes O.Sink sink.old sink.new out.old out.new
        (fault_text (widths_of shape.now) fault.now) result }
{
    match fault {
        Fault::FormWrong => push_numbered(out, sink, b"form", &[]),
        Fault::StageMissing { listed, wanted } => {
            push_numbered(out, sink, b"stages", &[*listed, *wanted])
        }
        Fault::ExampleWrong => push_numbered(out, sink, b"example", &[]),
        Fault::CountsDiffer {
            constraint,
            listed,
            counted,
        } => push_numbered(out, sink, b"counts", &[*constraint, *listed, *counted]),
        Fault::StateMissing { state, target } => {
            push_numbered(out, sink, b"state", &[*state, *target])
        }
        Fault::FinalsDiffer { state, listed } => {
            push_numbered(out, sink, b"final", &[*state, mark_number(*listed)])
        }
        Fault::ArcsTwice { state, column } => push_twice(out, sink, shape, *state, column),
        Fault::ArcsDiffer {
            state,
            column,
            listed,
            kept,
        } => push_arcs(out, sink, shape, *state, column, *listed, *kept),
        _ => push_stage_fault(out, sink, shape, fault),
    }
}
