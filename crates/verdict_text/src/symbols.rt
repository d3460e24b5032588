ghost use Rattle.outside.specs.Writers.{Pushes};
ghost use Rattle.verdict_text.specs.VerdictText.{column_after_space};

use outside::{OutBuffer, Sink, WriteErr};
use tier_core::Column;
use timeline_text::push_column;

/// Appends a column after a space.
pub(crate) fn push_column_after_space<O: Sink>(
    out: &mut OutBuffer,
    sink: &mut O,
    column: &Column,
) -> Result<(), WriteErr>
    ensures { Pushes O.Sink sink.old sink.new out.old out.new
        (column_after_space column.now) result }
{
    out.push(sink, b" ")?;
    push_column(out, sink, column)
}
