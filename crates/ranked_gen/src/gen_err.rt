use thiserror::Error;

/// Why no answer was made.
#[derive(Clone, Copy, Debug, PartialEq, Eq, Error)]
pub enum GenErr {
    /// This stage is the first that has more kinds of prefix than the budget.
    #[error("stage {stage} has more kinds than the budget")]
    Budget { stage: u32 },
    /// Memory ran out.
    #[error("out of memory")]
    NoMemory,
}
