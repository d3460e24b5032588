ghost use Rattle.outside.specs.Writers.{Puts};

use crate::sink::{Sink, WriteErr};

/// Writes a whole piece. After a refusal the sink has taken some prefix of it.
pub fn put_all<O: Sink>(sink: &mut O, piece: &[u8]) -> Result<(), WriteErr>
    ensures { Puts O.Sink sink.old sink.new piece.now result }
{
    let mut rest = piece;
    while !rest.is_empty() {
        let taken = sink.write(rest)?;
        rest = &rest[taken..];
    }
    Ok(())
}
