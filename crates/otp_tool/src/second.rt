ghost use Rattle.std.specs.Prelude.{◌≡◌, ◌≢◌, ◌≤◌, ℕ, List, length, IfOk, IfErr};
ghost use Rattle.otp_tool.specs.Files.{IsHeld};
ghost use Rattle.otp_tool.specs.Steps.{IsSecondRefusal};

use command_line::Status;
use outside::{LoadErr, Shelf};
use std::alloc::Global;

/// Loads the second file of a command, which the word of this number names. The file may have at most
/// `limit` bytes.
pub(crate) fn load_second<F: Shelf>(
    alloc: Global,
    shelf: &mut F,
    word: u32,
    name: &str,
    limit: u64,
) -> Result<Vec<u8>, Status>
    ensures ok { IfOk result (λ bytes. IsHeld (F.held shelf.old name.now) bytes.items) }
    ensures within { IfOk result (λ bytes. length bytes.items ≤ limit) }
    ensures err { IfErr result (IsSecondRefusal
        (record { word = word; name = name.now; limit = limit })
        (F.held shelf.old name.now) (F.faults shelf.old name.now) (F.faults shelf.new name.now)) }
    ensures held { (other : List ℕ) → F.held shelf.new other ≡ F.held shelf.old other }
    ensures never_falls { (other : List ℕ) → F.faults shelf.old other ≤ F.faults shelf.new other }
    ensures others { (other : List ℕ) → other ≢ name.now
        → F.faults shelf.new other ≡ F.faults shelf.old other }
{
    match shelf.load(alloc, name, limit) {
        Ok(bytes) => Ok(bytes),
        Err(LoadErr::Failed) => Err(Status::ReadFault { word }),
        Err(LoadErr::TooLong) => Err(Status::TooLong { word }),
        Err(LoadErr::NoMemory) => Err(Status::NoMemory),
    }
}
