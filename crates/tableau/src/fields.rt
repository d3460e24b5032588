ghost use Rattle.std.specs.Prelude.{◌≡◌, ◌-◌, ◌++◌, [], if◌then◌else◌, codes};
ghost use Rattle.outside.specs.Writers.{Pushes};
ghost use Rattle.timeline_text.specs.Texts.{text_of};
ghost use Rattle.tableau.specs.Layout.{count_text, is_at, left, right, spaces};

use crate::lengths::{count_length, is_at, text_length};
use outside::{OutBuffer, Sink, WriteErr, push_decimal};
use tier_core::Timeline;
use timeline_text::push_timeline;

/// Appends so many spaces.
fn push_spaces<O: Sink>(out: &mut OutBuffer, sink: &mut O, count: u128) -> Result<(), WriteErr>
    ensures { Pushes O.Sink sink.old sink.new out.old out.new (spaces count) result }
{
    let mut rest = count;
    while rest > 0 {
        out.push(sink, b" ")?;
        rest -= 1;
    }
    Ok(())
}

/// Appends the text of a timeline, aligned to the left in a field.
fn push_left<O: Sink>(
    out: &mut OutBuffer,
    sink: &mut O,
    width: u128,
    timeline: &Timeline,
) -> Result<(), WriteErr>
    ensures { Pushes O.Sink sink.old sink.new out.old out.new
        (left width (text_of timeline.now)) result }
{
    push_timeline(out, sink, timeline)?;
    push_spaces(out, sink, width.saturating_sub(text_length(timeline)))
}

/// Appends a mark, and then the text of a timeline, aligned to the left in a field.
pub(crate) fn push_first<O: Sink>(
    out: &mut OutBuffer,
    sink: &mut O,
    mark: &[u8],
    width: u128,
    timeline: &Timeline,
) -> Result<(), WriteErr>
    ensures { Pushes O.Sink sink.old sink.new out.old out.new
        (mark.now ++ left width (text_of timeline.now)) result }
{
    out.push(sink, mark)?;
    push_left(out, sink, width, timeline)
}

/// Appends the spaces before a text of so many bytes that is aligned to the right in a field.
fn push_margin<O: Sink>(
    out: &mut OutBuffer,
    sink: &mut O,
    width: usize,
    taken: usize,
) -> Result<(), WriteErr>
    ensures { Pushes O.Sink sink.old sink.new out.old out.new
        (codes " " ++ spaces (width - taken)) result }
{
    out.push(sink, b" ")?;
    push_spaces(out, sink, width.saturating_sub(taken) as u128)
}

/// Appends a text, aligned to the right in a field, after one space.
pub(crate) fn push_name<O: Sink>(
    out: &mut OutBuffer,
    sink: &mut O,
    width: usize,
    name: &[u8],
) -> Result<(), WriteErr>
    ensures { Pushes O.Sink sink.old sink.new out.old out.new
        (codes " " ++ right width name.now) result }
{
    push_margin(out, sink, width, name.len())?;
    out.push(sink, name)
}

/// What follows a count.
fn sign(worse: Option<u32>, place: usize) -> &'static [u8]
    ensures { result.now ≡ (if is_at worse place then codes "!" else []) }
{
    if is_at(worse, place) { b"!" } else { b"" }
}

/// Appends a count, and `!` after it if it is at the first worse constraint.
fn push_signed<O: Sink>(
    out: &mut OutBuffer,
    sink: &mut O,
    worse: Option<u32>,
    place: usize,
    count: u32,
) -> Result<(), WriteErr>
    ensures { Pushes O.Sink sink.old sink.new out.old out.new
        (count_text worse place count) result }
{
    push_decimal(out, sink, count as usize)?;
    out.push(sink, sign(worse, place))
}

/// Appends a count, aligned to the right in the field of its column, after one space.
pub(crate) fn push_count<O: Sink>(
    out: &mut OutBuffer,
    sink: &mut O,
    width: usize,
    worse: Option<u32>,
    place: usize,
    count: u32,
) -> Result<(), WriteErr>
    ensures { Pushes O.Sink sink.old sink.new out.old out.new
        (codes " " ++ right width (count_text worse place count)) result }
{
    push_margin(out, sink, width, count_length(worse, place, count))?;
    push_signed(out, sink, worse, place, count)
}
