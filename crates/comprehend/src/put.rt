ghost use Rattle.std.specs.Prelude.{◌<◌, ◌++◌, All, codes, length};
ghost use Rattle.std.specs.List.{flat_map};
ghost use Rattle.std.specs.String.{string_bytes};
ghost use Rattle.outside.specs.Writers.{Puts, Pushes};
ghost use Rattle.answer_text.specs.Text.{line, lines_text};
ghost use Rattle.timeline_text.specs.Texts.{text_of};
ghost use Rattle.comprehend.specs.HitText.{names_of, hit_lines, hits_text};

use crate::hit::Hit;
use lexicon::Entry;
use outside::{OutBuffer, Sink, WriteErr, push_number};
use tier_core::Timeline;
use timeline_text::push_timeline;

/// Appends the line of an entry's name.
fn push_entry_line<O: Sink>(
    out: &mut OutBuffer,
    sink: &mut O,
    entry: &Entry,
) -> Result<(), WriteErr>
    ensures { Pushes O.Sink sink.old sink.new out.old out.new
        (line (codes "entry " ++ string_bytes entry.now.name)) result }
{
    out.push(sink, b"entry ")?;
    out.push(sink, entry.name.as_bytes())?;
    out.push(sink, b"\n")
}

/// Appends the line of an example.
fn push_example_line<O: Sink>(
    out: &mut OutBuffer,
    sink: &mut O,
    example: &Timeline,
) -> Result<(), WriteErr>
    ensures { Pushes O.Sink sink.old sink.new out.old out.new
        (line (codes "example " ++ text_of example.now)) result }
{
    out.push(sink, b"example ")?;
    push_timeline(out, sink, example)?;
    out.push(sink, b"\n")
}

/// Appends the lines of a hit.
fn push_hit<O: Sink>(
    out: &mut OutBuffer,
    sink: &mut O,
    lexicon: &[Entry],
    hit: &Hit,
) -> Result<(), WriteErr>
    requires { hit.now.index < length lexicon.now }
    ensures { Pushes O.Sink sink.old sink.new out.old out.new
        (lines_text (hit_lines (names_of lexicon.now) hit.now)) result }
{
    push_entry_line(out, sink, &lexicon[hit.index as usize])?;
    push_example_line(out, sink, &hit.example)
}

/// Appends the lines of hits.
fn push_hits<O: Sink>(
    out: &mut OutBuffer,
    sink: &mut O,
    lexicon: &[Entry],
    hits: &[Hit],
) -> Result<(), WriteErr>
    requires { All (λ hit. hit.index < length lexicon.now) hits.now }
    ensures { Pushes O.Sink sink.old sink.new out.old out.new
        (lines_text (flat_map (hit_lines (names_of lexicon.now)) hits.now)) result }
{
    for hit in hits {
        push_hit(out, sink, lexicon, hit)?;
    }
    Ok(())
}

/// Writes the number of hits, and then for each hit the name of its entry and its example, each on
/// a line of its own. It allocates nothing except what the sink allocates in its writes.
///
/// Each hit is of an entry of the lexicon. After an error the sink has taken a prefix of these
/// lines. `Failed` is returned only if the sink's count of faults rose.
pub fn put_hits<O: Sink>(sink: &mut O, lexicon: &[Entry], hits: &[Hit]) -> Result<(), WriteErr>
    requires { All (λ hit. hit.index < length lexicon.now) hits.now }
    ensures { Puts O.Sink sink.old sink.new (hits_text (names_of lexicon.now) hits.now) result }
{
    let mut out = OutBuffer::new();
    push_number(&mut out, sink, b"hits ", hits.len())?;
    out.push(sink, b"\n")?;
    push_hits(&mut out, sink, lexicon, hits)?;
    out.flush(sink)
}
