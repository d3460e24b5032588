ghost use Rattle.outside.specs.Writers.{Puts, Pushes};
ghost use Rattle.answer_text.specs.Shape.{widths_of};
ghost use Rattle.cert_check.specs.declared.fault.Verdict.TheVariants.{No};
ghost use Rattle.verdict_text.specs.VerdictText.{verdict_text};

use crate::fault::push_fault;
use cert_check::{Fault, Verdict};
use outside::{OutBuffer, Sink, WriteErr};
use tier_core::Shape;

/// Appends the line of an answer that has a fault.
fn push_no<O: Sink>(
    out: &mut OutBuffer,
    sink: &mut O,
    shape: &Shape,
    fault: &Fault,
) -> Result<(), WriteErr>
    ensures { Pushes O.Sink sink.old sink.new out.old out.new
        (verdict_text (widths_of shape.now) (No fault.now)) result }
{
    out.push(sink, b"No ")?;
    push_fault(out, sink, shape, fault)?;
    out.push(sink, b"\n")
}

/// Appends the line of a verdict.
fn push_verdict<O: Sink>(
    out: &mut OutBuffer,
    sink: &mut O,
    shape: &Shape,
    verdict: &Verdict,
) -> Result<(), WriteErr>
    ensures { Pushes O.Sink sink.old sink.new out.old out.new
        (verdict_text (widths_of shape.now) verdict.now) result }
{
    match verdict {
        Verdict::Yes => out.push(sink, b"Yes\n"),
        Verdict::No(fault) => push_no(out, sink, shape, fault),
    }
}

/// Writes the line of a verdict on an answer for a grammar of this shape: `Yes`, or `No`, a word for
/// the fault, and its numbers, as `No potential 1 1 2 1`. A kind is written with the free tiers and the
/// stretch implications that the shape has at the stage of the fault. It uses no memory except what
/// the sink uses for its writes.
///
/// After an error the sink has taken a prefix of the line. The error is `Failed` only if the sink's
/// count of faults rose.
pub fn put_verdict<O: Sink>(sink: &mut O, shape: &Shape, verdict: &Verdict) -> Result<(), WriteErr>
    ensures { Puts O.Sink sink.old sink.new
        (verdict_text (widths_of shape.now) verdict.now) result }
{
    let mut out = OutBuffer::new();
    push_verdict(&mut out, sink, shape, verdict)?;
    out.flush(sink)
}
