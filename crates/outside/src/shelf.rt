ghost use Rattle.std.specs.Prelude.{◌≡◌, ◌≢◌, ◌<◌, ◌≤◌, List, Option, ℕ, length, Err, IfOk, IfSome};
ghost use Rattle.outside.specs.Faults.{Rose};

use std::alloc::Global;
use thiserror::Error;

/// Why a file was not loaded.
#[derive(Clone, Copy, Debug, PartialEq, Eq, Error)]
pub enum LoadErr {
    /// The file could not be read, and the shelf counted the fault.
    #[error("the file cannot be read")]
    Failed,
    /// The file has more bytes than the limit.
    #[error("the file is too long")]
    TooLong,
    /// Memory for the file or for the count of its faults ran out.
    #[error("out of memory")]
    NoMemory,
}

/// Where whole files come from, by name. What a shelf holds never changes.
pub trait Shelf {
    /// The bytes of the file with this name, or None if the shelf does not show them.
    ghost held: { Self → List ℕ → Option (List ℕ) };

    /// How many loads of a name have failed.
    ghost faults: { Self → List ℕ → ℕ };

    /// Loads the file with this name, which must have at most `limit` bytes. `NoMemory` may come in
    /// place of any other answer.
    fn load(&mut self, alloc: Global, name: &str, limit: u64) -> Result<Vec<u8>, LoadErr>
        // At most `limit` bytes are given, whether or not the shelf shows what it holds.
        ensures within_limit { IfOk result (λ bytes. length bytes.items ≤ limit) }

        // If it does, the whole file is given, and a file said to be too long is too long.
        ensures ok { IfOk result
            (λ bytes. IfSome (held self.old name.now) (λ text. bytes.items ≡ text)) }
        ensures too_long { result ≡ Err LoadErr.TooLong
            → IfSome (held self.old name.now) (λ text. limit < length text) }
        ensures held { (other : List ℕ) → held self.new other ≡ held self.old other }

        // A failure is counted, and only this name's count changes.
        ensures failed { result ≡ Err LoadErr.Failed
            → Rose (faults self.old name.now) (faults self.new name.now) }
        ensures never_falls { (other : List ℕ) → faults self.old other ≤ faults self.new other }
        ensures others { (other : List ℕ) → other ≢ name.now
            → faults self.new other ≡ faults self.old other };
}
