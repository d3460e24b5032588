ghost use Rattle.std.specs.Prelude.{◌≡◌, ◌+◌, ◌≤◌, [], List, ℕ, ◌++◌, length};
ghost use Rattle.outside.specs.Writers.{Puts, Pushes};

use crate::put::put_all;
use crate::sink::{Sink, WriteErr};
use std::marker::Model;

/// How many bytes may wait.
const ROOM: usize = 4096;

/// Bytes that wait for a sink, so that the sink sees few writes. A writer passes the pieces of its
/// text through one buffer, and flushes it at the end. Contracts see the bytes that wait.
///
/// A refusal ends the text: after it nothing waits, and the sink has taken some prefix of the bytes
/// that had waited, followed by the piece.
#[derive(Drop)]
pub struct OutBuffer {
    bytes: [u8; ROOM],
    len: usize,
}

impl Model for OutBuffer {
    ghost use Rattle.std.specs.Prelude.{List, ℕ, ◌≤◌, take};

    ghost Value = { List ℕ };

    ghost view = { λ s. take s.len s.bytes };

    ghost invariant = { λ s. s.len ≤ 4096 };
}

impl OutBuffer {
    /// A buffer in which nothing waits.
    pub fn new() -> OutBuffer
        ensures { result ≡ [] }
    {
        OutBuffer {
            bytes: [0; ROOM],
            len: 0,
        }
    }

    /// Appends a piece to the waiting bytes. If there is no room for it, they are handed on first.
    pub fn push<O: Sink>(&mut self, sink: &mut O, piece: &[u8]) -> Result<(), WriteErr>
        ensures { Pushes O.Sink sink.old sink.new self.old self.new piece.now result }
    {
        if piece.len() <= self.room() {
            self.hold(piece);
            return Ok(());
        }
        self.flush(sink)?;
        if piece.len() <= self.room() {
            self.hold(piece);
            return Ok(());
        }
        put_all(sink, piece)
    }

    /// Hands on all waiting bytes.
    pub fn flush<O: Sink>(&mut self, sink: &mut O) -> Result<(), WriteErr>
        ensures puts { Puts O.Sink sink.old sink.new self.old result }
        ensures empty { self.new ≡ [] }
    {
        let result = put_all(sink, &self.bytes[..self.len]);
        self.len = 0;
        result
    }

    fn room(&self) -> usize
        ensures { result + length self.now ≡ 4096 }
    {
        ROOM - self.len
    }

    fn hold(&mut self, piece: &[u8])
        requires { length self.old + length piece.now ≤ 4096 }
        ensures { self.new ≡ self.old ++ piece.now }
    {
        let end = self.len + piece.len();
        self.bytes[self.len..end].copy_from_slice(piece);
        self.len = end;
    }
}
