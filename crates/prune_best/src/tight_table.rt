use arc_table::Table;
use weight_law::UnitWeight;

/// A pruned table, and for each of its states the number of that state in the table that it was
/// made from.
#[derive(Drop)]
pub struct Tight {
    pub table: Table<UnitWeight>,
    pub states: Vec<u32>,
}
