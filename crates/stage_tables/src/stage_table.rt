use arc_table::Table;
use tier_core::Kind;
use weight_law::Count;

/// The table of a stage, whose moves weigh what they cost under the stage's constraint, and for
/// each of its states the kind that it stands for.
#[derive(Drop)]
pub struct StageTable {
    pub kinds: Vec<Kind>,
    pub table: Table<Count>,
}

/// Why a table is not explored.
#[derive(Clone, Copy, Debug, PartialEq, Eq)]
pub enum ExploreErr {
    /// There are more kinds than the budget.
    OverBudget,
    /// Memory ran out.
    NoMemory,
}
