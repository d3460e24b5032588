ghost use Rattle.std.specs.Prelude.{◌≡◌};

use std::alloc::{AllocError, AllocFailed};
use thiserror::Error;

/// Why a line, or a text as a whole, is refused. On each line the causes are tried in the order in
/// which they are listed here.
#[derive(Clone, Copy, Debug, PartialEq, Eq, Error)]
pub enum GrammarCause {
    /// A byte outside a comment is not spacing and does not begin a token.
    #[error("a byte does not begin a token")]
    BadByte,
    /// The first line with tokens is not `otp 1`.
    #[error("the first line is not `otp 1`")]
    BadHeader,
    /// The tokens have none of the forms.
    #[error("the line has none of the forms")]
    BadLine,
    /// A word in place of a name is not a name, or a letter is not a single letter or digit.
    #[error("a word is not a name")]
    BadName,
    /// The name is already defined, or a letter has a tier twice.
    #[error("a name is already defined")]
    TwiceNamed,
    /// A tier is named that no earlier line has defined.
    #[error("a tier is not known")]
    UnknownTier,
    /// A letter has a tier that is not an input tier.
    #[error("a letter's tier is not an input tier")]
    NotInput,
    /// This is the 13th tier, the 7th input tier or the 9th free tier.
    #[error("there are too many tiers")]
    TooManyTiers,
    /// This is the 25th constraint.
    #[error("there are too many constraints")]
    TooManyConstraints,
    /// A side has more than 8 events.
    #[error("a side has too many events")]
    TooManyEvents,
    /// There is no input tier.
    #[error("there is no input tier")]
    NoInput,
    /// There is no overt tier.
    #[error("there is no overt tier")]
    NoOvert,
}

/// Why a text is not a grammar.
#[derive(Clone, Copy, Debug, PartialEq, Eq, Error)]
pub enum GrammarErr {
    /// The first line that has a cause, counted from 1, and its first cause. The line is 0 if the
    /// text as a whole has no input tier or no overt tier.
    #[error("line {line}: {cause}")]
    At { line: u32, cause: GrammarCause },
    /// Memory ran out.
    #[error("out of memory")]
    NoMemory,
}

impl From<AllocError> for GrammarErr {
    ghost use Rattle.grammar_reader.specs.declared.grammar_err.GrammarErr.TheVariants.{NoMemory};

    ghost from_gives = { λ _ e. e ≡ NoMemory };

    fn from(_e: AllocError) -> GrammarErr {
        GrammarErr::NoMemory
    }
}

impl<T: Drop> From<AllocFailed<T>> for GrammarErr {
    ghost use Rattle.grammar_reader.specs.declared.grammar_err.GrammarErr.TheVariants.{NoMemory};

    ghost from_gives = { λ _ e. e ≡ NoMemory };

    fn from(_e: AllocFailed<T>) -> GrammarErr {
        GrammarErr::NoMemory
    }
}
