ghost use Rattle.outside.specs.Writers.{Puts, Pushes};
ghost use Rattle.answer_text.specs.Text.{counts_text, shown_text};

use crate::answer::Answer;
use crate::put::{push_counts_line, push_timeline_line};
use outside::{OutBuffer, Sink, WriteErr};

/// Writes the line of a timeline's counts, in ranked order, as `counts 0 1`. It uses no memory except
/// what the sink uses for its writes.
///
/// After an error the sink has taken a prefix of the line. The error is `Failed` only if the sink's
/// count of faults rose.
pub fn put_counts<O: Sink>(sink: &mut O, counts: &[u32]) -> Result<(), WriteErr>
    ensures { Puts O.Sink sink.old sink.new (counts_text counts.now) result }
{
    let mut out = OutBuffer::new();
    push_counts_line(&mut out, sink, counts)?;
    out.flush(sink)
}

/// Appends the lines of the counts and the example.
fn push_shown_lines<O: Sink>(
    out: &mut OutBuffer,
    sink: &mut O,
    answer: &Answer,
) -> Result<(), WriteErr>
    ensures { Pushes O.Sink sink.old sink.new out.old out.new (shown_text answer.now) result }
{
    push_counts_line(out, sink, &answer.counts)?;
    push_timeline_line(out, sink, b"example ", &answer.example)
}

/// Writes the lines `counts` and `example` of an answer. It uses no memory except what the sink uses
/// for its writes.
///
/// After an error the sink has taken a prefix of these lines. The error is `Failed` only if the
/// sink's count of faults rose.
pub fn put_shown<O: Sink>(sink: &mut O, answer: &Answer) -> Result<(), WriteErr>
    ensures { Puts O.Sink sink.old sink.new (shown_text answer.now) result }
{
    let mut out = OutBuffer::new();
    push_shown_lines(&mut out, sink, answer)?;
    out.flush(sink)
}
