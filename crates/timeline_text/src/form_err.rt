use thiserror::Error;

/// Why a text is not a timeline. Offsets, columns and tiers are counted from 0.
#[derive(Clone, Copy, Debug, PartialEq, Eq, Error)]
pub enum FormErr {
    /// The byte at this offset is neither a symbol nor a space.
    #[error("the byte at {at} is not a symbol")]
    BadSymbol { at: usize },
    /// This piece between spaces does not have one byte for each tier.
    #[error("column {column} does not have one symbol for each tier")]
    WrongWidth { column: usize },
    /// There are more columns than the limit allows.
    #[error("there are too many columns")]
    TooLong,
    /// The symbols of this tier do not draw constituents.
    #[error("tier {tier} is not well formed")]
    NotWellFormed { tier: u32 },
    /// This column has no edge.
    #[error("column {column} has no edge")]
    NotReduced { column: usize },
    /// The byte at this offset of a spelled form is not a letter.
    #[error("the byte at {at} is not a letter")]
    UnknownLetter { at: usize },
    /// Memory ran out.
    #[error("out of memory")]
    NoMemory,
}
