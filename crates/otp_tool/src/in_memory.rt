ghost use Rattle.std.specs.Prelude.{◌≡◌, ◌≢◌, ◌⊎◌, ℕ, List};
ghost use Rattle.command_line.specs.Words.{words_of};
ghost use Rattle.outside.specs.Held.{visible_text};
ghost use Rattle.otp_tool.specs.Endings.{IsStatusOf, change_in_memory};
ghost use Rattle.otp_tool.specs.Findings.{Finding, ready};
ghost use Rattle.otp_tool.specs.Outcomes.{IsTold, answer_to};

use crate::commands::respond;
use command_line::Status;
use outside::{SafeShelf, SafeSink};
use std::alloc::Global;

/// Runs the words of a command over files and a sink in memory, which never fail. So no fault of
/// reading or writing occurs, and what the command finds has its own status, unless memory runs out.
/// All else that `run` promises holds of the bytes of this sink.
pub fn run_in_memory(
    alloc: Global,
    words: &[String],
    shelf: &mut SafeShelf,
    sink: &mut SafeSink,
) -> Status
    ensures status { IsStatusOf (words_of words.now)
        (change_in_memory shelf.old sink.old sink.new) result }
    ensures held { (other : List ℕ) → visible_text shelf.new other ≡ visible_text shelf.old other }
    ensures no_read_fault { (word : ℕ) → result ≢ Status.ReadFault word }
    ensures no_write_fault { result ≢ Status.WriteFault }
    ensures complete { IsTold (words_of words.now) (visible_text shelf.old) ready
        → (result ≡ Status.Done) ⊎ ((result ≡ Status.No) ⊎ (result ≡ Status.NoMemory)) }
    ensures due { (finding : Finding) → finding ≢ ready
        → IsTold (words_of words.now) (visible_text shelf.old) finding
        → (result ≡ answer_to finding) ⊎ (result ≡ Status.NoMemory) }
{
    respond(alloc, words, shelf, sink)
}
