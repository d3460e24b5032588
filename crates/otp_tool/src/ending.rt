ghost use Rattle.std.specs.Prelude.{◌≡◌, ◌≤◌, ℕ, List};
ghost use Rattle.command_line.specs.Words.{words_of};
ghost use Rattle.otp_tool.specs.Endings.{IsEnding};
ghost use Rattle.otp_tool.specs.Outcomes.{IsUnnamed};
ghost use Rattle.otp_tool.specs.Steps.{change_of};

use crate::commands::respond;
use command_line::put_status;
use outside::{Shelf, Sink};
use std::alloc::Global;

/// Runs the words of a command and ends as a program does: it writes the line of the status to
/// `errors`, and gives the number of the status, whether or not `errors` took the line.
pub fn run_to_end<F: Shelf, O: Sink, E: Sink>(
    alloc: Global,
    words: &[String],
    shelf: &mut F,
    sink: &mut O,
    errors: &mut E,
) -> u8
    ensures ending { IsEnding (words_of words.now)
        (change_of F.Shelf O.Sink shelf.old shelf.new sink.old sink.new)
        E.Sink errors.old errors.new result }
    ensures held { (other : List ℕ) → F.held shelf.new other ≡ F.held shelf.old other }
    ensures never_falls { (other : List ℕ) → F.faults shelf.old other ≤ F.faults shelf.new other }
    ensures others { (other : List ℕ) → IsUnnamed (words_of words.now) other
        → F.faults shelf.new other ≡ F.faults shelf.old other }
    ensures sink_never_falls { O.faults sink.old ≤ O.faults sink.new }
{
    let status = respond(alloc, words, shelf, sink);
    let _written = put_status(errors, &status);
    status.number()
}
