ghost use Rattle.std.specs.Prelude.{◌≡◌, ◌≢◌, ◌<◌, ◌≤◌, length, Err, IfOk, IfSome};
ghost use Rattle.outside.specs.Held.{files_of, visible_text};

use crate::files;
use crate::shelf::{LoadErr, Shelf};
use std::alloc::Global;
use std::marker::Model;

/// Files in memory whose loads never fail. A name that it does not hold is an empty file. Contracts
/// see the names and the bytes of its files.
#[derive(Drop)]
pub struct SafeShelf {
    files: Vec<(String, Vec<u8>)>,
}

impl Model for SafeShelf {
    ghost use Rattle.std.specs.Prelude.{List, ℕ};
    ghost use Rattle.outside.specs.Held.{files_of};

    ghost Value = { List (List ℕ × List ℕ) };

    ghost view = { λ s. files_of s.files.items };
}

impl SafeShelf {
    /// A shelf of these files, by their names. If two files share a name, it holds the first.
    pub fn new(files: Vec<(String, Vec<u8>)>) -> SafeShelf
        ensures { result ≡ files_of files.items }
    {
        SafeShelf { files }
    }
}

impl Shelf for SafeShelf {
    ghost held = { visible_text };

    ghost faults = { λ _ _. 0 };

    /// Copies the file, unless it is too long or memory runs out.
    fn load(&mut self, alloc: Global, name: &str, limit: u64) -> Result<Vec<u8>, LoadErr>
        ensures within_limit { IfOk result (λ bytes. length bytes.items ≤ limit) }
        ensures ok { IfOk result
            (λ bytes. IfSome (visible_text self.old name.now) (λ text. bytes.items ≡ text)) }
        ensures too_long { result ≡ Err LoadErr.TooLong
            → IfSome (visible_text self.old name.now) (λ text. limit < length text) }
        ensures no_fault { result ≢ Err LoadErr.Failed }
        ensures same { self.new ≡ self.old }
    {
        files::copy(alloc, files::find(&self.files, name).unwrap_or(&[]), limit)
    }
}
