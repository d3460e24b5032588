ghost use Rattle.std.specs.Prelude.{◌≡◌, ◌<◌, ◌≤◌, length, Err, IfOk, OnErr};
ghost use Rattle.std.specs.Io.KnownBytes.{WriteAppends};
ghost use Rattle.outside.specs.Faults.{next_fault_count};
ghost use Rattle.outside.specs.MemSink.{faults_after};

use crate::sink::{Sink, WriteErr};
use std::io::Write;
use std::marker::Model;

/// A stream of the system as a sink: standard output or standard error, as the program's runtime
/// gives them. Contracts see what the stream holds, if the stream itself shows that, and the count
/// of faults. The sink does not show what it has taken, since not every stream does.
#[derive(Drop)]
pub struct StreamSink<W: Write + Drop> {
    stream: W,
    faults: u64,
}

impl<W: Write + Drop> Model for StreamSink<W> {
    ghost use Rattle.outside.specs.StreamSink.{Streaming};

    ghost Value = { Streaming };

    ghost view = { λ s. record { contents = W.contents s.stream; faults = s.faults } };
}

impl<W: Write + Drop> StreamSink<W> {
    /// A sink over this stream, with no fault so far.
    pub fn new(stream: W) -> StreamSink<W>
        ensures { result ≡ record { contents = W.contents stream; faults = 0 } }
    {
        StreamSink { stream, faults: 0 }
    }

    fn fault(&mut self) -> WriteErr
        ensures answer { result ≡ WriteErr.Failed }
        ensures counted { self.new ≡ record self.old { faults = next_fault_count self.old.faults } }
        ensures never_falls { self.old.faults ≤ self.new.faults }
    {
        self.faults = self.faults.saturating_add(1);
        WriteErr::Failed
    }
}

impl<W: Write + Drop> Sink for StreamSink<W> {
    ghost use Rattle.std.specs.Prelude.{None};

    ghost taken = { λ _. None };

    ghost faults = { λ s. s.faults };

    /// Hands the piece to the stream, and answers how many bytes the stream took. If it took
    /// nothing of a nonempty piece, it has failed.
    fn write(&mut self, piece: &[u8]) -> Result<usize, WriteErr>
        ensures count { IfOk result (λ n. (n ≤ length piece.now) × (0 < length piece.now → 0 < n)) }
        ensures contents { WriteAppends self.old.contents self.new.contents result piece.now }
        ensures failed { OnErr result (result ≡ Err WriteErr.Failed) }
        ensures faults { self.new.faults ≡ faults_after result self.old.faults }
        ensures never_falls { self.old.faults ≤ self.new.faults }
    {
        match self.stream.write(piece) {
            Ok(0) if !piece.is_empty() => Err(self.fault()),
            Ok(count) => Ok(count),
            Err(_) => Err(self.fault()),
        }
    }
}
