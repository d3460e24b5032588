ghost use Rattle.std.specs.Prelude.{◌++◌, codes};
ghost use Rattle.std.specs.Fmt.{decimal};
ghost use Rattle.outside.specs.Writers.{Pushes};
ghost use Rattle.command_line.specs.Causes.{cause_text};
ghost use Rattle.command_line.specs.Lines.{form_cause_text};

use crate::cause::Cause;
use outside::{OutBuffer, Sink, WriteErr, push_number};
use timeline_text::FormErr;

/// Appends a text, a number, and a text after it.
pub(crate) fn push_worded<O: Sink>(
    out: &mut OutBuffer,
    sink: &mut O,
    front: &[u8],
    number: usize,
    back: &[u8],
) -> Result<(), WriteErr>
    ensures { Pushes O.Sink sink.old sink.new out.old out.new
        ((front.now ++ decimal number) ++ back.now) result }
{
    push_number(out, sink, front, number)?;
    out.push(sink, back)
}

/// Appends a name, and the end of the line.
fn push_name<O: Sink>(out: &mut OutBuffer, sink: &mut O, name: &[u8]) -> Result<(), WriteErr>
    ensures { Pushes O.Sink sink.old sink.new out.old out.new (name.now ++ codes "\n") result }
{
    out.push(sink, name)?;
    out.push(sink, b"\n")
}

/// Appends the name of a form's cause, its number, and the end of the line.
fn push_form_cause<O: Sink>(
    out: &mut OutBuffer,
    sink: &mut O,
    cause: FormErr,
) -> Result<(), WriteErr>
    ensures { Pushes O.Sink sink.old sink.new out.old out.new
        (form_cause_text cause ++ codes "\n") result }
{
    match cause {
        FormErr::BadSymbol { at } => push_worded(out, sink, b"BadSymbol ", at, b"\n"),
        FormErr::WrongWidth { column } => push_worded(out, sink, b"WrongWidth ", column, b"\n"),
        FormErr::TooLong => out.push(sink, b"TooLong\n"),
        FormErr::NotWellFormed { tier } => {
            push_worded(out, sink, b"NotWellFormed ", tier as usize, b"\n")
        }
        FormErr::NotReduced { column } => push_worded(out, sink, b"NotReduced ", column, b"\n"),
        FormErr::UnknownLetter { at } => push_worded(out, sink, b"UnknownLetter ", at, b"\n"),
        FormErr::NoMemory => out.push(sink, b"NoMemory\n"),
    }
}

/// Appends the cause of an entry whose form is refused, and the end of the line.
fn push_entry_form<O: Sink>(
    out: &mut OutBuffer,
    sink: &mut O,
    index: u32,
    cause: FormErr,
) -> Result<(), WriteErr>
    ensures { Pushes O.Sink sink.old sink.new out.old out.new
        (cause_text (Cause.EntryForm index cause) ++ codes "\n") result }
{
    push_worded(out, sink, b"BadForm ", index as usize, b" ")?;
    push_form_cause(out, sink, cause)
}

/// Appends a cause, and the end of the line.
pub(crate) fn push_cause<O: Sink>(
    out: &mut OutBuffer,
    sink: &mut O,
    cause: Cause,
) -> Result<(), WriteErr>
    ensures { Pushes O.Sink sink.old sink.new out.old out.new
        (cause_text cause ++ codes "\n") result }
{
    match cause {
        Cause::Named(name) => push_name(out, sink, name),
        Cause::Form(cause) => push_form_cause(out, sink, cause),
        Cause::Entry(name, index) => push_worded(out, sink, name, index as usize, b"\n"),
        Cause::EntryForm(index, cause) => push_entry_form(out, sink, index, cause),
    }
}
