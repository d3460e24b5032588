ghost use Rattle.std.specs.Prelude.{◌++◌};
ghost use Rattle.std.specs.Fmt.{decimal};
ghost use Rattle.outside.specs.Writers.{Pushes};

use crate::out_buffer::OutBuffer;
use crate::sink::{Sink, WriteErr};
use itoa::Buffer;

/// Appends a number in decimal digits.
pub fn push_decimal<O: Sink>(
    out: &mut OutBuffer,
    sink: &mut O,
    number: usize,
) -> Result<(), WriteErr>
    ensures { Pushes O.Sink sink.old sink.new out.old out.new (decimal number) result }
{
    let mut buffer = Buffer::new();
    out.push(sink, buffer.format(number).as_bytes())
}

/// Appends a text, followed by a number in decimal digits.
pub fn push_number<O: Sink>(
    out: &mut OutBuffer,
    sink: &mut O,
    front: &[u8],
    number: usize,
) -> Result<(), WriteErr>
    ensures { Pushes O.Sink sink.old sink.new out.old out.new (front.now ++ decimal number) result }
{
    out.push(sink, front)?;
    push_decimal(out, sink, number)
}
