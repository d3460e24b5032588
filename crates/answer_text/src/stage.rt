use tier_core::Kind;

/// A kind of prefix, and the least count that remains from it under the constraint of its stage.
#[derive(Clone, Copy, Debug, PartialEq, Eq)]
pub struct Node {
    pub kind: Kind,
    pub potential: u32,
}

/// The kinds of a stage in kind order. Nodes are numbered from 0.
#[derive(Drop)]
pub struct Stage {
    pub nodes: Vec<Node>,
}
