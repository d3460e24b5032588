ghost use Rattle.std.specs.Prelude.{◌≡◌};
ghost use Rattle.command_line.specs.Causes.{cause_text};
ghost use Rattle.command_line.specs.Lines.{answer_cause_text, grammar_cause_text, lexicon_cause_text, rows_cause_text};

use answer_reader::AnswerCause;
use grammar_reader::GrammarCause;
use lexicon::LexErr;
use tableau::RowsCause;
use timeline_text::FormErr;

/// The cause of a refusal, as its line gives it.
#[derive(Clone, Copy)]
pub(crate) enum Cause {
    /// A name alone.
    Named(&'static [u8]),
    /// The cause of a form.
    Form(FormErr),
    /// A name, and the entry of a lexicon.
    Entry(&'static [u8], u32),
    /// The entry of a lexicon whose form is refused, and the cause of that form.
    EntryForm(u32, FormErr),
}

/// The cause of a grammar.
pub(crate) fn grammar_cause(cause: GrammarCause) -> Cause
    ensures { cause_text result ≡ grammar_cause_text cause }
{
    match cause {
        GrammarCause::BadByte => Cause::Named(b"BadByte"),
        GrammarCause::BadHeader => Cause::Named(b"BadHeader"),
        GrammarCause::BadLine => Cause::Named(b"BadLine"),
        GrammarCause::BadName => Cause::Named(b"BadName"),
        GrammarCause::TwiceNamed => Cause::Named(b"TwiceNamed"),
        GrammarCause::UnknownTier => Cause::Named(b"UnknownTier"),
        GrammarCause::NotInput => Cause::Named(b"NotInput"),
        GrammarCause::TooManyTiers => Cause::Named(b"TooManyTiers"),
        GrammarCause::TooManyConstraints => Cause::Named(b"TooManyConstraints"),
        GrammarCause::TooManyEvents => Cause::Named(b"TooManyEvents"),
        GrammarCause::NoInput => Cause::Named(b"NoInput"),
        GrammarCause::NoOvert => Cause::Named(b"NoOvert"),
    }
}

/// The cause of a row.
pub(crate) fn rows_cause(cause: RowsCause) -> Cause
    ensures { cause_text result ≡ rows_cause_text cause }
{
    match cause {
        RowsCause::Form(cause) => Cause::Form(cause),
        RowsCause::NotCandidate => Cause::Named(b"NotCandidate"),
        RowsCause::TooMany => Cause::Named(b"TooMany"),
    }
}

/// The cause of a lexicon.
pub(crate) fn lexicon_cause(cause: LexErr) -> Cause
    ensures { cause_text result ≡ lexicon_cause_text cause }
{
    match cause {
        LexErr::NotToml => Cause::Named(b"NotToml"),
        LexErr::TooMany => Cause::Named(b"TooMany"),
        LexErr::BadEntry { index } => Cause::Entry(b"BadEntry ", index),
        LexErr::TwiceNamed { index } => Cause::Entry(b"TwiceNamed ", index),
        LexErr::BadForm { index, cause } => Cause::EntryForm(index, cause),
        LexErr::NoMemory => Cause::Named(b"NoMemory"),
    }
}

/// The cause of an answer.
pub(crate) fn answer_cause(cause: AnswerCause) -> Cause
    ensures { cause_text result ≡ answer_cause_text cause }
{
    match cause {
        AnswerCause::CutShort => Cause::Named(b"CutShort"),
        AnswerCause::BadHeader => Cause::Named(b"BadHeader"),
        AnswerCause::BadLine => Cause::Named(b"BadLine"),
        AnswerCause::BadNumber => Cause::Named(b"BadNumber"),
        AnswerCause::BadClass => Cause::Named(b"BadClass"),
        AnswerCause::BadOrder => Cause::Named(b"BadOrder"),
        AnswerCause::ExtraBytes => Cause::Named(b"ExtraBytes"),
    }
}
