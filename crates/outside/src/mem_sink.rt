ghost use Rattle.std.specs.Prelude.{◌≡◌, ◌+◌, ◌<◌, ◌≤◌, ◌↔◌, [], ◌++◌, List, Option, ℕ, length, take, min, Contains, Err, IfOk, OnErr, OnOk};
ghost use Rattle.outside.specs.Faults.{Rose, next_fault_count};
ghost use Rattle.outside.specs.MemSink.{faults_after};
ghost use Rattle.outside.specs.Sent.{append_if_seen};

use crate::sink::{Sink, WriteErr};
use std::alloc::Global;
use std::marker::Model;

/// A sink in memory that takes few bytes at a time, and whose chosen writes fail. Contracts see its
/// bytes, its settings, and its counts of writes and faults.
#[derive(Drop)]
pub struct MemSink {
    bytes: Vec<u8>,
    most: usize,
    failing: Vec<u64>,
    writes: u64,
    faults: u64,
}

impl Model for MemSink {
    ghost use Rattle.std.specs.Prelude.{◌<◌};
    ghost use Rattle.outside.specs.MemSink.{Taking};

    ghost Value = { Taking };

    ghost view = { λ s. record { bytes = s.bytes.items; most = s.most; failing = s.failing.items; writes = s.writes; faults = s.faults } };

    ghost invariant = { λ s. 0 < s.most };
}

impl MemSink {
    /// A sink that takes at most `most` bytes of a piece; `most` is at least 1. Writes are numbered
    /// from 1, and those whose numbers are in `failing` fail.
    pub fn new(alloc: Global, most: usize, failing: Vec<u64>) -> MemSink
        requires { 0 < most }
        ensures { result ≡ record
            { bytes = []; most = most; failing = failing.items; writes = 0; faults = 0 } }
    {
        MemSink {
            bytes: Vec::new(alloc),
            most,
            failing,
            writes: 0,
            faults: 0,
        }
    }

    /// The bytes that it has taken so far.
    pub fn bytes(&self) -> &[u8]
        ensures { result.now ≡ self.now.bytes }
    {
        &self.bytes
    }
}

impl Sink for MemSink {
    ghost use Rattle.std.specs.Prelude.{Some};

    ghost taken = { λ s. Some s.bytes };

    ghost faults = { λ s. s.faults };

    /// Takes as many bytes as it may. It refuses a write that is not meant to fail only if memory
    /// runs out.
    fn write(&mut self, piece: &[u8]) -> Result<usize, WriteErr>
        ensures count { IfOk result (λ n. n ≡ min (length piece.now) self.old.most) }
        ensures some { IfOk result (λ n. 0 < length piece.now → 0 < n) }
        ensures ok { IfOk result (λ n. self.new.bytes ≡ self.old.bytes ++ take n piece.now) }
        ensures err { OnErr result (self.new.bytes ≡ self.old.bytes) }
        ensures failed { (result ≡ Err WriteErr.Failed)
            ↔ Contains self.old.failing self.new.writes }
        ensures faults { self.new.faults ≡ faults_after result self.old.faults }
        ensures never_falls { self.old.faults ≤ self.new.faults }
        ensures writes { self.new.writes ≡ next_fault_count self.old.writes }
        ensures settings { (self.new.most ≡ self.old.most) × (self.new.failing ≡ self.old.failing) }
    {
        self.writes = self.writes.saturating_add(1);
        if self.failing.contains(&self.writes) {
            self.faults = self.faults.saturating_add(1);
            return Err(WriteErr::Failed);
        }
        let count = piece.len().min(self.most);
        match self.bytes.extend_from_slice(&piece[..count]) {
            Ok(()) => Ok(count),
            Err(_) => Err(WriteErr::NoMemory),
        }
    }
}
