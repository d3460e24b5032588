use crate::arc::TableArc;
use weight_law::Weight;

/// A state: whether a path may end at it, and the moves from it.
#[derive(Drop)]
pub struct TableState<W: Weight> {
    pub accepting: bool,
    pub arcs: Vec<TableArc<W>>,
}
