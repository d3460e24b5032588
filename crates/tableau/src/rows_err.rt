ghost use Rattle.std.specs.Prelude.{◌≡◌};

use std::alloc::AllocFailed;
use thiserror::Error;
use timeline_text::FormErr;

/// Why a line has no row. On one line the causes are tried in the order `TooMany`, `Form`,
/// `NotCandidate`.
#[derive(Clone, Copy, Debug, PartialEq, Eq, Error)]
pub enum RowsCause {
    /// The line is not the text of a timeline of at most 4,096 columns, for this cause, which is
    /// never `NoMemory`.
    #[error("{0}")]
    Form(FormErr),
    /// The timeline is not a candidate of the form.
    #[error("the row is not a candidate of the form")]
    NotCandidate,
    /// This is the 33rd row.
    #[error("there are too many rows")]
    TooMany,
}

/// Why a text gives no rows.
#[derive(Clone, Copy, Debug, PartialEq, Eq, Error)]
pub enum RowsErr {
    /// The first line that has a cause, counted from 1, and its first cause.
    #[error("row {row}: {cause}")]
    At { row: u32, cause: RowsCause },
    /// Memory ran out.
    #[error("out of memory")]
    NoMemory,
}

impl<T: Drop> From<AllocFailed<T>> for RowsErr {
    ghost use Rattle.tableau.specs.declared.rows_err.RowsErr.TheVariants.{NoMemory};

    ghost from_gives = { λ _ e. e ≡ NoMemory };

    fn from(_e: AllocFailed<T>) -> RowsErr {
        RowsErr::NoMemory
    }
}
