use tier_core::Class;

/// A move on each column of a class, to the state that has the node number `target`.
#[derive(Clone, Copy, Debug, PartialEq, Eq)]
pub struct ArcLine {
    pub target: u32,
    pub class: Class,
}

/// A state: the number of its node in the last stage, whether it is final, and its arcs, which
/// ascend by target and then by class.
#[derive(Drop)]
pub struct StateLine {
    pub node: u32,
    pub accepting: bool,
    pub arcs: Vec<ArcLine>,
}

/// The states in the order of their node numbers. The start has node number 0.
#[derive(Drop)]
pub struct Automaton {
    pub states: Vec<StateLine>,
}
