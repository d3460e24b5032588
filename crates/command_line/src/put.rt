ghost use Rattle.std.specs.Prelude.{◌++◌, codes};
ghost use Rattle.std.specs.Fmt.{decimal};
ghost use Rattle.outside.specs.Writers.{Puts, Pushes};
ghost use Rattle.command_line.specs.Causes.{cause_text};
ghost use Rattle.command_line.specs.Lines.{status_text};

use crate::cause::{Cause, answer_cause, grammar_cause, lexicon_cause, rows_cause};
use crate::pushed::{push_cause, push_worded};
use crate::status::Status;
use outside::{OutBuffer, Sink, WriteErr, push_number};

/// Appends what was refused, its number, and the cause.
fn push_refused<O: Sink>(
    out: &mut OutBuffer,
    sink: &mut O,
    front: &[u8],
    number: u32,
    cause: Cause,
) -> Result<(), WriteErr>
    ensures { Pushes O.Sink sink.old sink.new out.old out.new
        (((front.now ++ decimal number) ++ codes ": ") ++ (cause_text cause ++ codes "\n"))
        result }
{
    push_worded(out, sink, front, number as usize, b": ")?;
    push_cause(out, sink, cause)
}

/// Appends the word of a file that was refused, the line or row at fault, and the cause.
fn push_refused_at<O: Sink>(
    out: &mut OutBuffer,
    sink: &mut O,
    front: &[u8],
    word: u32,
    part: &[u8],
    number: u32,
    cause: Cause,
) -> Result<(), WriteErr>
    ensures { Pushes O.Sink sink.old sink.new out.old out.new
        ((front.now ++ decimal word)
        ++ (((part.now ++ decimal number) ++ codes ": ") ++ (cause_text cause ++ codes "\n")))
        result }
{
    push_number(out, sink, front, word as usize)?;
    push_refused(out, sink, part, number, cause)
}

/// Appends the line of a stage that has more kinds of prefix than the budget.
fn push_budget<O: Sink>(
    out: &mut OutBuffer,
    sink: &mut O,
    entry: u32,
    stage: u32,
) -> Result<(), WriteErr>
    ensures { Pushes O.Sink sink.old sink.new out.old out.new
        (status_text (Status.Budget entry stage)) result }
{
    push_number(out, sink, b"budget entry ", entry as usize)?;
    push_worded(out, sink, b" stage ", stage as usize, b"\n")
}

/// Appends the line of a status.
fn push_line<O: Sink>(out: &mut OutBuffer, sink: &mut O, status: &Status) -> Result<(), WriteErr>
    ensures { Pushes O.Sink sink.old sink.new out.old out.new (status_text status.now) result }
{
    match *status {
        Status::Done => out.push(sink, b""),
        Status::No => out.push(sink, b"no\n"),
        Status::Usage => out.push(sink, b"usage\n"),
        Status::GrammarRefused { word, line, cause } => {
            let cause = grammar_cause(cause);
            push_refused_at(out, sink, b"grammar word ", word, b" line ", line, cause)
        }
        Status::FormRefused { word, cause } => {
            push_refused(out, sink, b"form word ", word, Cause::Form(cause))
        }
        Status::LexiconRefused { word, cause } => {
            push_refused(out, sink, b"lexicon word ", word, lexicon_cause(cause))
        }
        Status::AnswerRefused { word, line, cause } => {
            let cause = answer_cause(cause);
            push_refused_at(out, sink, b"answer word ", word, b" line ", line, cause)
        }
        Status::Budget { entry, stage } => push_budget(out, sink, entry, stage),
        Status::ReadFault { word } => {
            push_worded(out, sink, b"read fault word ", word as usize, b"\n")
        }
        Status::WriteFault => out.push(sink, b"write fault\n"),
        Status::NoMemory => out.push(sink, b"no memory\n"),
        Status::RowsRefused { word, row, cause } => {
            let cause = rows_cause(cause);
            push_refused_at(out, sink, b"rows word ", word, b" row ", row, cause)
        }
        Status::TooLong { word } => {
            push_worded(out, sink, b"too long word ", word as usize, b"\n")
        }
    }
}

/// Writes the line of a status, which ends with a line feed. `Done` has no line.
///
/// If writing is refused, the sink has taken a front of the line. `Failed` occurs only if the sink's
/// count of faults rose.
pub fn put_status<O: Sink>(sink: &mut O, status: &Status) -> Result<(), WriteErr>
    ensures { Puts O.Sink sink.old sink.new (status_text status.now) result }
{
    let mut out = OutBuffer::new();
    push_line(&mut out, sink, status)?;
    out.flush(sink)
}
