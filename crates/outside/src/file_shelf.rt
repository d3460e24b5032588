ghost use Rattle.std.specs.Prelude.{◌≡◌, ◌≢◌, ◌≤◌, List, ℕ, length, Err, IfOk, OnErr};
ghost use Rattle.std.specs.Io.{ReadsAtMost};
ghost use Rattle.std.specs.Io.KnownBytes.{ReadConsumes};
ghost use Rattle.outside.specs.Counts.{fault_count};
ghost use Rattle.outside.specs.FileShelf.{HasRead, IsWholeLoad};
ghost use Rattle.outside.specs.MemShelf.{faults_after};

use crate::counts::{self, Counts};
use crate::shelf::{LoadErr, Shelf};
use std::alloc::Global;
use std::collections::BTreeMap;
use std::fs;
use std::io::{self, Read};
use std::rt::Files;

/// How many bytes are read at a time, at most.
const TURN: usize = 8192;

/// The files of the system, by their paths. It does not show what they hold.
#[derive(Drop)]
pub struct FileShelf<'a, R: Files> {
    runtime: &'a R,
    faults: Counts,
}

impl<'a, R: Files> FileShelf<'a, R> {
    /// The files that a runtime reaches, with no fault so far.
    pub fn new(alloc: Global, runtime: &'a R) -> FileShelf<'a, R>
        ensures { (name : List ℕ) → ⟦<FileShelf<'a, R> as Shelf>⟧.faults result name ≡ 0 }
    {
        FileShelf {
            runtime,
            faults: BTreeMap::new(alloc),
        }
    }
}

impl<R: Files> Shelf for FileShelf<'_, R> {
    ghost use Rattle.std.specs.Prelude.{None};

    ghost held = { λ _ _. None };

    ghost faults = { λ s name. fault_count s.faults name };

    /// Opens the file and reads it to its end, or up to the first byte past the limit. A load
    /// allocates the count of its name before it opens the file, so that it can count a fault.
    fn load(&mut self, alloc: Global, name: &str, limit: u64) -> Result<Vec<u8>, LoadErr>
        ensures within_limit { IfOk result (λ bytes. length bytes.items ≤ limit) }
        // What was loaded is all that remained in some file of the runtime, as far as that file
        // shows it. No contract of the system says which file a name opens.
        ensures whole { HasRead result
            → (file : R.File) × IsWholeLoad (R.File.remaining file) limit result }

        // Exactly the failed loads are counted.
        ensures faults { fault_count self.new.faults name.now
            ≡ faults_after result (fault_count self.old.faults name.now) }
        ensures never_falls { (other : List ℕ)
            → fault_count self.old.faults other ≤ fault_count self.new.faults other }
        ensures others { (other : List ℕ) → other ≢ name.now
            → fault_count self.new.faults other ≡ fault_count self.old.faults other }
    {
        if counts::prepare(&mut self.faults, alloc, name).is_err() {
            return Err(LoadErr::NoMemory);
        }
        let answer = read_opened(alloc, fs::open(self.runtime, name), limit);
        counts::count_fault(&mut self.faults, name, &answer);
        answer
    }
}

// Reads a file, if it could be opened.
fn read_opened<F: Read + Drop>(
    alloc: Global,
    opened: io::Result<F>,
    limit: u64,
) -> Result<Vec<u8>, LoadErr>
    ensures within_limit { IfOk result (λ bytes. length bytes.items ≤ limit) }
    ensures whole { IfOk opened (λ file. IsWholeLoad (F.remaining file) limit result) }
    ensures unopened { OnErr opened (result ≡ Err LoadErr.Failed) }
{
    match opened {
        Ok(mut file) => read_whole(alloc, &mut file, limit),
        Err(_) => Err(LoadErr::Failed),
    }
}

// Reads a file to its end, or up to the first byte past the limit.
fn read_whole<F: Read>(alloc: Global, file: &mut F, limit: u64) -> Result<Vec<u8>, LoadErr>
    ensures within_limit { IfOk result (λ bytes. length bytes.items ≤ limit) }
    ensures whole { IsWholeLoad (F.remaining file.old) limit result }
{
    let mut bytes = Vec::new(alloc);
    let mut turn = [0; TURN];
    while bytes.len() as u64 <= limit {
        let most = (limit - bytes.len() as u64).min(TURN as u64 - 1) as usize + 1;
        let taken = read_some(file, &mut turn[..most])?;
        if taken == 0 {
            return Ok(bytes);
        }
        if bytes.extend_from_slice(&turn[..taken]).is_err() {
            return Err(LoadErr::NoMemory);
        }
    }
    Err(LoadErr::TooLong)
}

// Reads some bytes of a file. A failed read is a fault, and is never reported as lack of memory.
fn read_some<F: Read>(file: &mut F, turn: &mut [u8]) -> Result<usize, LoadErr>
    ensures bound { ReadsAtMost result turn.new }
    ensures bytes { ReadConsumes (F.remaining file.old) (F.remaining file.new) result turn.new }
    ensures failed { OnErr result (result ≡ Err LoadErr.Failed) }
{
    file.read(turn).map_err(|_| LoadErr::Failed)
}
