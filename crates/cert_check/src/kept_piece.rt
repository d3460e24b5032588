use tier_core::{Class, Kind};

/// Where a move leads at a stage.
#[derive(Drop)]
pub(crate) enum MoveTarget {
    /// To the node with this number, which tells the kind.
    Node(u32),
    /// To this kind, which no node tells.
    Unlisted(Kind),
}

/// Columns on which the moves of a kind are kept, lead to one kind, and cost the same.
#[derive(Drop)]
pub(crate) struct KeptPiece {
    pub class: Class,
    /// Where they lead.
    pub target: MoveTarget,
    /// What each of them costs under the last constraint of the stage; 0 at stage 0.
    pub cost: u32,
}
