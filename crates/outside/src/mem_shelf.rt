ghost use Rattle.std.specs.Prelude.{◌≡◌, ◌≢◌, ◌<◌, ◌≤◌, ◌↔◌, false, IsTrue, List, Option, ℕ, length, Err, IfOk, IfSome};
ghost use Rattle.outside.specs.Faults.{Rose, next_fault_count};
ghost use Rattle.outside.specs.Held.{files_of, file_text, visible_text};
ghost use Rattle.outside.specs.MemShelf.{failing_of, fails, faults_after, faults_of, files_in, has_count, loads_of};

use crate::counts::{self, Counts};
use crate::files;
use crate::shelf::{LoadErr, Shelf};
use std::alloc::Global;
use std::collections::BTreeMap;

/// Files in memory, some of whose loads fail, as chosen. A load of a name that it does not hold
/// fails too; contracts see such a name as an empty file.
#[derive(Drop)]
pub struct MemShelf {
    files: Vec<(String, Vec<u8>)>,
    failing: Vec<u64>,
    loads: u64,
    faults: Counts,
}

impl MemShelf {
    /// A shelf of these files, by their names. If two files share a name, it holds the first. Loads
    /// are numbered from 1, and those whose numbers are in `failing` fail.
    pub fn new(alloc: Global, files: Vec<(String, Vec<u8>)>, failing: Vec<u64>) -> MemShelf
        ensures files { files_in result ≡ files_of files.items }
        ensures failing { failing_of result ≡ failing.items }
        ensures loads { loads_of result ≡ 0 }
        ensures faults { (name : List ℕ) → faults_of result name ≡ 0 }
    {
        MemShelf {
            files,
            failing,
            loads: 0,
            faults: BTreeMap::new(alloc),
        }
    }

    // The answer of the load whose number was just counted.
    fn answer(&self, alloc: Global, name: &str, limit: u64) -> Result<Vec<u8>, LoadErr>
        ensures ok { IfOk result
            (λ bytes.
            (length bytes.items ≤ limit)
            × IfSome (visible_text (files_in self.now) name.now) (λ text. bytes.items ≡ text)) }
        ensures too_long { result ≡ Err LoadErr.TooLong
            → IfSome (visible_text (files_in self.now) name.now) (λ text. limit < length text) }
        ensures failed { (result ≡ Err LoadErr.Failed) ↔ IsTrue (fails self.now name.now) }
    {
        if self.failing.contains(&self.loads) {
            return Err(LoadErr::Failed);
        }
        match files::find(&self.files, name) {
            Some(text) => files::copy(alloc, text, limit),
            None => Err(LoadErr::Failed),
        }
    }
}

impl Shelf for MemShelf {
    ghost held = { λ s name. visible_text (files_in s) name };

    ghost faults = { faults_of };

    /// Copies the file. A load first allocates the count of its name, so that it can count a fault.
    fn load(&mut self, alloc: Global, name: &str, limit: u64) -> Result<Vec<u8>, LoadErr>
        ensures within_limit { IfOk result (λ bytes. length bytes.items ≤ limit) }
        ensures ok { IfOk result
            (λ bytes. IfSome (visible_text (files_in self.old) name.now)
            (λ text. bytes.items ≡ text)) }
        ensures too_long { result ≡ Err LoadErr.TooLong
            → IfSome (visible_text (files_in self.old) name.now) (λ text. limit < length text) }
        ensures failed { result ≢ Err LoadErr.NoMemory → (result ≡ Err LoadErr.Failed)
            ↔ IsTrue (fails self.new name.now) }

        // A fault is reported as lack of memory only if there was none for its count.
        ensures no_memory { result ≡ Err LoadErr.NoMemory → IsTrue (fails self.new name.now)
            → has_count self.new name.now ≡ false }
        ensures faults { faults_of self.new name.now
            ≡ faults_after result (faults_of self.old name.now) }
        ensures never_falls { (other : List ℕ)
            → faults_of self.old other ≤ faults_of self.new other }
        ensures others { (other : List ℕ) → other ≢ name.now
            → faults_of self.new other ≡ faults_of self.old other }
        ensures loads { loads_of self.new ≡ next_fault_count (loads_of self.old) }
        ensures settings { (files_in self.new ≡ files_in self.old)
            × (failing_of self.new ≡ failing_of self.old) }
    {
        self.loads = self.loads.saturating_add(1);
        if counts::prepare(&mut self.faults, alloc, name).is_err() {
            return Err(LoadErr::NoMemory);
        }
        let answer = self.answer(alloc, name, limit);
        counts::count_fault(&mut self.faults, name, &answer);
        answer
    }
}
