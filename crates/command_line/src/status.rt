ghost use Rattle.std.specs.Prelude.{◌≡◌};
ghost use Rattle.command_line.specs.Lines.{status_number};

use answer_reader::AnswerCause;
use grammar_reader::GrammarCause;
use lexicon::LexErr;
use tableau::RowsCause;
use timeline_text::FormErr;

/// How a command ended. `word` is the index of a word; the command itself is word 0.
#[derive(Clone, Copy, Debug, PartialEq, Eq)]
pub enum Status {
    /// Everything was done.
    Done,
    /// Everything was done, and the answer that was checked has a fault.
    No,
    /// The words are not a command.
    Usage,
    /// The file is not a grammar: its first line with a cause, counted from 1, and the cause. The
    /// line is 0 if the file as a whole has no input tier or no overt tier.
    GrammarRefused {
        word: u32,
        line: u32,
        cause: GrammarCause,
    },
    /// The word is not a form over the input tiers of the grammar, not a timeline over all its
    /// tiers, or not a surface over its overt tiers.
    FormRefused {
        word: u32,
        cause: FormErr,
    },
    /// The file is not a lexicon.
    LexiconRefused {
        word: u32,
        cause: LexErr,
    },
    /// The file is not an answer: its first line with a cause, counted from 1, and the cause.
    AnswerRefused {
        word: u32,
        line: u32,
        cause: AnswerCause,
    },
    /// A stage has more kinds of prefix than the budget: the entry of a lexicon, or 0 if there is
    /// one form, and the first such stage.
    Budget {
        entry: u32,
        stage: u32,
    },
    /// The file could not be read.
    ReadFault {
        word: u32,
    },
    /// The output could not be written.
    WriteFault,
    /// Memory ran out.
    NoMemory,
    /// The file is not a rows file: its first line with a cause, counted from 1, and the cause.
    RowsRefused {
        word: u32,
        row: u32,
        cause: RowsCause,
    },
    /// The file is longer than its limit.
    TooLong {
        word: u32,
    },
}

impl Status {
    /// The exit status of a program that ends so.
    pub fn number(&self) -> u8
        ensures { result ≡ status_number self.now }
    {
        match self {
            Status::Done => 0,
            Status::No => 1,
            Status::Usage => 2,
            Status::GrammarRefused { .. } => 3,
            Status::FormRefused { .. } => 4,
            Status::LexiconRefused { .. } => 5,
            Status::AnswerRefused { .. } => 6,
            Status::Budget { .. } => 7,
            Status::ReadFault { .. } => 8,
            Status::WriteFault => 9,
            Status::NoMemory => 10,
            Status::RowsRefused { .. } => 11,
            Status::TooLong { .. } => 12,
        }
    }
}
