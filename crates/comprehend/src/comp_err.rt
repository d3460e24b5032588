use thiserror::Error;

/// Why a lexicon was not searched to the end.
#[derive(Clone, Copy, Debug, PartialEq, Eq, Error)]
pub enum CompErr {
    /// The entry of this number, counted from 0, is the first that has a stage with more kinds of
    /// prefix than the budget, and this is its first such stage.
    #[error("entry {index}: stage {stage} has more kinds than the budget")]
    Budget { index: u32, stage: u32 },
    /// Memory ran out.
    #[error("out of memory")]
    NoMemory,
}
