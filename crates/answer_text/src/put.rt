ghost use Rattle.std.specs.Prelude.{◌≤◌, ◌++◌, length};
ghost use Rattle.outside.specs.Writers.{Puts, Pushes};
ghost use Rattle.answer_text.specs.Shape.{widths_of};
ghost use Rattle.answer_text.specs.Text.{answer_text, counts_line, head_lines, line, lines_text};
ghost use Rattle.timeline_text.specs.Texts.{text_of};

use crate::answer::Answer;
use crate::automaton_writer::push_automaton;
use crate::number::push_numbers;
use crate::stage_writer::push_stages;
use outside::{OutBuffer, Sink, WriteErr};
use tier_core::{Shape, Timeline};
use timeline_text::push_timeline;

/// Appends a line of a word and a timeline.
pub fn push_timeline_line<O: Sink>(
    out: &mut OutBuffer,
    sink: &mut O,
    word: &[u8],
    timeline: &Timeline,
) -> Result<(), WriteErr>
    ensures { Pushes O.Sink sink.old sink.new out.old out.new
        (line (word.now ++ text_of timeline.now)) result }
{
    out.push(sink, word)?;
    push_timeline(out, sink, timeline)?;
    out.push(sink, b"\n")
}

/// Appends the line of the counts.
pub fn push_counts_line<O: Sink>(
    out: &mut OutBuffer,
    sink: &mut O,
    counts: &[u32],
) -> Result<(), WriteErr>
    ensures { Pushes O.Sink sink.old sink.new out.old out.new
        (line (counts_line counts.now)) result }
{
    out.push(sink, b"counts")?;
    push_numbers(out, sink, counts)?;
    out.push(sink, b"\n")
}

/// Appends the lines before the stages.
fn push_head<O: Sink>(out: &mut OutBuffer, sink: &mut O, answer: &Answer) -> Result<(), WriteErr>
    ensures { Pushes O.Sink sink.old sink.new out.old out.new
        (lines_text (head_lines answer.now)) result }
{
    out.push(sink, b"answer 1\n")?;
    push_timeline_line(out, sink, b"form ", &answer.form)?;
    push_counts_line(out, sink, &answer.counts)?;
    push_timeline_line(out, sink, b"example ", &answer.example)
}

/// Appends the lines of an answer.
fn push_lines<O: Sink>(
    out: &mut OutBuffer,
    sink: &mut O,
    shape: &Shape,
    answer: &Answer,
) -> Result<(), WriteErr>
    requires { length answer.now.stages.items ≤ length shape.now.phases.items }
    ensures { Pushes O.Sink sink.old sink.new out.old out.new
        (answer_text (widths_of shape.now) answer.now) result }
{
    push_head(out, sink, answer)?;
    push_stages(out, sink, shape, &answer.stages)?;
    push_automaton(out, sink, &answer.automaton.states)?;
    out.push(sink, b"end\n")
}

/// Writes the text of an answer. It uses no memory except what the sink uses for its writes.
///
/// The answer has at most as many stages as `shape.phases` has entries. A kind is written with the
/// free tiers and the stretch implications that the shape has at its stage; any bits beyond these
/// are not written.
///
/// After an error the sink has taken a prefix of the text. The error is `Failed` only if the sink's
/// count of faults rose.
pub fn put_answer<O: Sink>(sink: &mut O, shape: &Shape, answer: &Answer) -> Result<(), WriteErr>
    requires { length answer.now.stages.items ≤ length shape.now.phases.items }
    ensures { Puts O.Sink sink.old sink.new (answer_text (widths_of shape.now) answer.now) result }
{
    let mut out = OutBuffer::new();
    push_lines(&mut out, sink, shape, answer)?;
    out.flush(sink)
}
