ghost use Rattle.std.specs.Prelude.{◌≡◌, ◌++◌, codes, length};
ghost use Rattle.std.specs.Fmt.{decimal};
ghost use Rattle.outside.specs.Writers.{Pushes, Puts};
ghost use Rattle.answer_text.specs.Text.{line, shown_text};
ghost use Rattle.otp_tool.specs.Samples.{yes_or_no};

use answer_text::{Answer, put_shown};
use outside::{OutBuffer, Sink, WriteErr, push_number};

/// What the summary of a sample says beside its form, counts and example: how many pairs of states have
/// an arc from the one to the other, and whether the answer was checked and has no fault.
#[derive(Clone, Copy, Debug, PartialEq, Eq)]
pub(crate) struct Summary {
    pub(crate) pairs: usize,
    pub(crate) faultless: bool,
}

/// Appends the line of the form.
fn push_form<O: Sink>(out: &mut OutBuffer, sink: &mut O, word: &[u8]) -> Result<(), WriteErr>
    ensures { Pushes O.Sink sink.old sink.new out.old out.new
        (line (codes "form " ++ word.now)) result }
{
    out.push(sink, b"form ")?;
    out.push(sink, word)?;
    out.push(sink, b"\n")
}

/// Writes the line of the form.
fn put_form<O: Sink>(sink: &mut O, word: &[u8]) -> Result<(), WriteErr>
    ensures { Puts O.Sink sink.old sink.new (line (codes "form " ++ word.now)) result }
{
    let mut out = OutBuffer::new();
    push_form(&mut out, sink, word)?;
    out.flush(sink)
}

/// Appends a line with a number after a text.
fn push_size<O: Sink>(
    out: &mut OutBuffer,
    sink: &mut O,
    front: &[u8],
    number: usize,
) -> Result<(), WriteErr>
    ensures { Pushes O.Sink sink.old sink.new out.old out.new
        (line (front.now ++ decimal number)) result }
{
    push_number(out, sink, front, number)?;
    out.push(sink, b"\n")
}

/// The last line, which says whether the answer was checked and has no fault.
fn last_line(faultless: bool) -> &'static [u8]
    ensures { result.now ≡ line (codes "check " ++ yes_or_no faultless) }
{
    if faultless {
        b"check Yes\n"
    } else {
        b"check No\n"
    }
}

/// Appends the lines of the numbers of states and pairs, and the last line.
fn push_sizes<O: Sink>(
    out: &mut OutBuffer,
    sink: &mut O,
    states: usize,
    summary: Summary,
) -> Result<(), WriteErr>
    ensures { Pushes O.Sink sink.old sink.new out.old out.new
        (line (codes "states " ++ decimal states)
        ++ (line (codes "pairs " ++ decimal summary.pairs)
        ++ line (codes "check " ++ yes_or_no summary.faultless))) result }
{
    push_size(out, sink, b"states ", states)?;
    push_size(out, sink, b"pairs ", summary.pairs)?;
    out.push(sink, last_line(summary.faultless))
}

/// Writes these lines.
fn put_sizes<O: Sink>(sink: &mut O, states: usize, summary: Summary) -> Result<(), WriteErr>
    ensures { Puts O.Sink sink.old sink.new
        (line (codes "states " ++ decimal states)
        ++ (line (codes "pairs " ++ decimal summary.pairs)
        ++ line (codes "check " ++ yes_or_no summary.faultless))) result }
{
    let mut out = OutBuffer::new();
    push_sizes(&mut out, sink, states, summary)?;
    out.flush(sink)
}

/// Writes the summary of an answer to the form of a word.
pub(crate) fn put_sample<O: Sink>(
    sink: &mut O,
    word: &[u8],
    answer: &Answer,
    summary: Summary,
) -> Result<(), WriteErr>
    ensures { Puts O.Sink sink.old sink.new
        (line (codes "form " ++ word.now)
        ++ (shown_text answer.now
        ++ (line (codes "states " ++ decimal (length answer.now.automaton.states.items))
        ++ (line (codes "pairs " ++ decimal summary.pairs)
        ++ line (codes "check " ++ yes_or_no summary.faultless))))) result }
{
    put_form(sink, word)?;
    put_shown(sink, answer)?;
    put_sizes(sink, answer.automaton.states.as_slice().len(), summary)
}
