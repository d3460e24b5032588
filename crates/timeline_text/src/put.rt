ghost use Rattle.std.specs.Prelude.{◌≡◌, length, map, take};
ghost use Rattle.outside.specs.Writers.{Puts, Pushes};
ghost use Rattle.tier_core.specs.Symbols.{byte_of};
ghost use Rattle.timeline_text.specs.Tails.{tail_text};
ghost use Rattle.timeline_text.specs.Texts.{text_of};

use outside::{OutBuffer, Sink, WriteErr};
use tier_core::{Column, Timeline};

/// An array that begins with the bytes of a column.
fn column_bytes(column: &Column) -> [u8; 12]
    ensures { take (length column.now) result ≡ map byte_of column.now }
{
    let mut bytes = [0; 12];
    for (tier, sym) in column.syms().iter().enumerate() {
        bytes[tier] = sym.byte();
    }
    bytes
}

/// Appends the bytes of a column, as part of a longer text.
pub fn push_column<O: Sink>(
    out: &mut OutBuffer,
    sink: &mut O,
    column: &Column,
) -> Result<(), WriteErr>
    ensures { Pushes O.Sink sink.old sink.new out.old out.new (map byte_of column.now) result }
{
    let bytes = column_bytes(column);
    out.push(sink, &bytes[..column.width() as usize])
}

// The columns after the first one, each after a space.
fn push_tail<O: Sink>(out: &mut OutBuffer, sink: &mut O, columns: &[Column]) -> Result<(), WriteErr>
    ensures { Pushes O.Sink sink.old sink.new out.old out.new (tail_text columns.now) result }
{
    for column in columns {
        out.push(sink, b" ")?;
        push_column(out, sink, column)?;
    }
    Ok(())
}

/// Appends the text of a timeline, as part of a longer text.
pub fn push_timeline<O: Sink>(
    out: &mut OutBuffer,
    sink: &mut O,
    timeline: &Timeline,
) -> Result<(), WriteErr>
    ensures { Pushes O.Sink sink.old sink.new out.old out.new (text_of timeline.now) result }
{
    let Some((first, others)) = timeline.columns().split_first() else {
        return out.push(sink, b"empty");
    };
    push_column(out, sink, first)?;
    push_tail(out, sink, others)
}

/// Writes the text of a timeline.
pub fn put_timeline<O: Sink>(sink: &mut O, timeline: &Timeline) -> Result<(), WriteErr>
    ensures { Puts O.Sink sink.old sink.new (text_of timeline.now) result }
{
    let mut out = OutBuffer::new();
    push_timeline(&mut out, sink, timeline)?;
    out.flush(sink)
}
