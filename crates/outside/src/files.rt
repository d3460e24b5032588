ghost use Rattle.std.specs.Prelude.{◌≡◌, ◌<◌, ◌≤◌, IfOk, length, Err, Ok};
ghost use Rattle.std.specs.Option.{option_copied};
ghost use Rattle.outside.specs.Held.{files_of, file_text};

use crate::shelf::LoadErr;
use std::alloc::Global;

// The bytes of the first file with this name.
pub(crate) fn find<'a>(files: &'a [(String, Vec<u8>)], name: &str) -> Option<&'a [u8]>
    ensures { option_copied result ≡ file_text (files_of files.now) name.now }
{
    for (known, bytes) in files {
        if known.as_str() == name {
            return Some(bytes);
        }
    }
    None
}

// A copy of a text that must have at most `limit` bytes.
pub(crate) fn copy(alloc: Global, text: &[u8], limit: u64) -> Result<Vec<u8>, LoadErr>
    ensures ok { IfOk result (λ bytes. (bytes.items ≡ text.now) × (length text.now ≤ limit)) }
    ensures too_long { result ≡ Err LoadErr.TooLong → limit < length text.now }
    ensures no_fault { result ≡ Err LoadErr.Failed → ⊥ }
{
    if limit < text.len() as u64 {
        return Err(LoadErr::TooLong);
    }
    match Vec::from_slice(alloc, text) {
        Ok(bytes) => Ok(bytes),
        Err(_) => Err(LoadErr::NoMemory),
    }
}
