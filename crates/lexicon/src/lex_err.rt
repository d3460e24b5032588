use std::alloc::{AllocError, AllocFailed};
use thiserror::Error;
use timeline_text::FormErr;

/// Why a file is not a lexicon. Entries are counted from 0.
#[derive(Clone, Copy, Debug, PartialEq, Eq, Error)]
pub enum LexErr {
    /// The bytes are not UTF-8, or the text is not TOML.
    #[error("the file is not TOML")]
    NotToml,
    /// There are more than 1,000 entries.
    #[error("there are too many entries")]
    TooMany,
    /// This entry is not a table, or has no string `name` or `form`, or its name is not 1 to 64
    /// bytes long, or has a byte below 32 or equal to 127. The index is 0 if `entry` is not an
    /// array.
    #[error("entry {index} is not an entry")]
    BadEntry { index: u32 },
    /// An earlier entry has the name of this one.
    #[error("the name of entry {index} is already used")]
    TwiceNamed { index: u32 },
    /// The form of this entry is refused for this cause, which is never that memory ran out.
    #[error("the form of entry {index}: {cause}")]
    BadForm { index: u32, cause: FormErr },
    /// Memory ran out.
    #[error("out of memory")]
    NoMemory,
}

impl From<AllocError> for LexErr {
    ghost use Rattle.std.specs.Prelude.{◌≡◌};
    ghost use Rattle.lexicon.specs.declared.lex_err.LexErr.TheVariants.{NoMemory};

    ghost from_gives = { λ _ e. e ≡ NoMemory };

    fn from(_e: AllocError) -> LexErr {
        LexErr::NoMemory
    }
}

impl<T: Drop> From<AllocFailed<T>> for LexErr {
    ghost use Rattle.std.specs.Prelude.{◌≡◌};
    ghost use Rattle.lexicon.specs.declared.lex_err.LexErr.TheVariants.{NoMemory};

    ghost from_gives = { λ _ e. e ≡ NoMemory };

    fn from(_e: AllocFailed<T>) -> LexErr {
        LexErr::NoMemory
    }
}
