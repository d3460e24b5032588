ghost use Rattle.std.specs.Prelude.{◌≡◌, ◌<◌, ◌≤◌, [], List, Option, ℕ, ◌++◌, length, take, Err, IfOk, OnErr};
ghost use Rattle.outside.specs.Faults.{Rose};
ghost use Rattle.outside.specs.Sent.{append_if_seen};

use crate::sink::{Sink, WriteErr};
use std::alloc::Global;
use std::marker::Model;

/// A sink in memory that never fails. Contracts see its bytes.
#[derive(Drop)]
pub struct SafeSink {
    bytes: Vec<u8>,
}

impl Model for SafeSink {
    ghost use Rattle.std.specs.Prelude.{List, ℕ};

    ghost Value = { List ℕ };

    ghost view = { λ s. s.bytes.items };
}

impl SafeSink {
    /// A sink that has taken nothing.
    pub fn new(alloc: Global) -> SafeSink
        ensures { result ≡ [] }
    {
        SafeSink {
            bytes: Vec::new(alloc),
        }
    }

    /// The bytes that it has taken so far.
    pub fn bytes(&self) -> &[u8]
        ensures { result.now ≡ self.now }
    {
        &self.bytes
    }
}

impl Sink for SafeSink {
    ghost use Rattle.std.specs.Prelude.{Some};

    ghost taken = { λ s. Some s };

    ghost faults = { λ _. 0 };

    /// Takes the whole piece, unless memory runs out.
    fn write(&mut self, piece: &[u8]) -> Result<usize, WriteErr>
        ensures ok { IfOk result
            (λ n. (n ≡ length piece.now) × (self.new ≡ self.old ++ piece.now)) }
        ensures err { OnErr result (self.new ≡ self.old) }
        ensures only_memory { OnErr result (result ≡ Err WriteErr.NoMemory) }
    {
        match self.bytes.extend_from_slice(piece) {
            Ok(()) => Ok(piece.len()),
            Err(_) => Err(WriteErr::NoMemory),
        }
    }
}
