ghost use Rattle.std.specs.Prelude.{◌≡◌};

use std::alloc::{AllocError, AllocFailed};
use thiserror::Error;

/// Why a line of an answer's text is refused. On one line the causes are tried in the order in which
/// they are listed here.
#[derive(Clone, Copy, Debug, PartialEq, Eq, Error)]
pub enum AnswerCause {
    /// The bytes end before the end of a required line.
    #[error("the text ends before the line does")]
    CutShort,
    /// The first line is not `answer 1`.
    #[error("the first line is not `answer 1`")]
    BadHeader,
    /// The line does not have a form that is allowed there, or its timeline is refused.
    #[error("the line has none of the forms")]
    BadLine,
    /// A number has a leading zero or is out of its range.
    #[error("a number is out of its range")]
    BadNumber,
    /// A class is not written as classes are, or does not have the width of the grammar.
    #[error("a class is not written as classes are")]
    BadClass,
    /// A node, state or arc does not come strictly after the one before it.
    #[error("the line is out of order")]
    BadOrder,
    /// Bytes follow the line `end`.
    #[error("bytes follow the end")]
    ExtraBytes,
}

/// Why a text is not that of an answer.
#[derive(Clone, Copy, Debug, PartialEq, Eq, Error)]
pub enum AnswerErr {
    /// The first line that has a cause, counted from 1, and its first cause.
    #[error("line {line}: {cause}")]
    At { line: u32, cause: AnswerCause },
    /// Memory ran out.
    #[error("out of memory")]
    NoMemory,
}

impl From<AllocError> for AnswerErr {
    ghost use Rattle.answer_reader.specs.declared.answer_err.AnswerErr.TheVariants.{NoMemory};

    ghost from_gives = { λ _ e. e ≡ NoMemory };

    fn from(_e: AllocError) -> AnswerErr {
        AnswerErr::NoMemory
    }
}

impl<T: Drop> From<AllocFailed<T>> for AnswerErr {
    ghost use Rattle.answer_reader.specs.declared.answer_err.AnswerErr.TheVariants.{NoMemory};

    ghost from_gives = { λ _ e. e ≡ NoMemory };

    fn from(_e: AllocFailed<T>) -> AnswerErr {
        AnswerErr::NoMemory
    }
}
