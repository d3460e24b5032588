ghost use Rattle.std.specs.Prelude.{◌≡◌, ◌<◌, ◌≤◌, List, Option, ℕ, length, take, Err, IfOk, OnErr};
ghost use Rattle.outside.specs.Faults.{Rose};
ghost use Rattle.outside.specs.Sent.{append_if_seen};

use thiserror::Error;

/// Why bytes were not taken.
#[derive(Clone, Copy, Debug, PartialEq, Eq, Error)]
pub enum WriteErr {
    /// The sink failed, and counted the fault.
    #[error("the bytes cannot be written")]
    Failed,
    /// Memory for the bytes ran out.
    #[error("out of memory")]
    NoMemory,
}

/// Where bytes go.
pub trait Sink {
    /// The bytes that it has taken so far, or None if it does not show them.
    ghost taken: { Self → Option (List ℕ) };

    /// How many faults it has had.
    ghost faults: { Self → ℕ };

    /// Takes the first bytes of a piece, and answers how many: at least one, if the piece is
    /// nonempty. A refusal means that it has taken none.
    fn write(&mut self, piece: &[u8]) -> Result<usize, WriteErr>
        ensures count { IfOk result (λ n. (n ≤ length piece.now) × (0 < length piece.now → 0 < n)) }
        ensures ok { IfOk result
            (λ n. taken self.new ≡ append_if_seen (taken self.old) (take n piece.now)) }
        ensures err { OnErr result (taken self.new ≡ taken self.old) }
        ensures never_falls { faults self.old ≤ faults self.new }
        ensures failed { result ≡ Err WriteErr.Failed → Rose (faults self.old) (faults self.new) };
}
