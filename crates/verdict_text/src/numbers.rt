ghost use Rattle.std.specs.Prelude.{◌≡◌, ◌++◌};
ghost use Rattle.outside.specs.Writers.{Pushes};
ghost use Rattle.answer_text.specs.Text.{spaced_numbers};
ghost use Rattle.verdict_text.specs.VerdictText.{mark_number, target_after_space};

use answer_text::push_numbers;
use outside::{OutBuffer, Sink, WriteErr, push_number};

/// Appends a word and the numbers after it.
pub(crate) fn push_numbered<O: Sink>(
    out: &mut OutBuffer,
    sink: &mut O,
    word: &[u8],
    numbers: &[u32],
) -> Result<(), WriteErr>
    ensures { Pushes O.Sink sink.old sink.new out.old out.new
        (word.now ++ spaced_numbers numbers.now) result }
{
    out.push(sink, word)?;
    push_numbers(out, sink, numbers)
}

/// Appends the target of a move after a space, or `none`.
pub(crate) fn push_target<O: Sink>(
    out: &mut OutBuffer,
    sink: &mut O,
    target: Option<u32>,
) -> Result<(), WriteErr>
    ensures { Pushes O.Sink sink.old sink.new out.old out.new (target_after_space target) result }
{
    match target {
        None => out.push(sink, b" none"),
        Some(target) => push_number(out, sink, b" ", target as usize),
    }
}

/// The number of a mark.
pub(crate) fn mark_number(mark: bool) -> u32
    ensures { result ≡ mark_number mark }
{
    if mark { 1 } else { 0 }
}
