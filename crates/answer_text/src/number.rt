ghost use Rattle.outside.specs.Writers.{Pushes};
ghost use Rattle.answer_text.specs.Text.{spaced_numbers};

use outside::{OutBuffer, Sink, WriteErr, push_number};

/// Appends numbers, each after a space. After an error the sink has taken a prefix of the waiting
/// bytes and the numbers, and no bytes wait.
pub fn push_numbers<O: Sink>(
    out: &mut OutBuffer,
    sink: &mut O,
    numbers: &[u32],
) -> Result<(), WriteErr>
    ensures { Pushes O.Sink sink.old sink.new out.old out.new (spaced_numbers numbers.now) result }
{
    for number in numbers {
        push_number(out, sink, b" ", *number as usize)?;
    }
    Ok(())
}
