use tier_core::Kind;

/// A kind from which moves are looked at.
#[derive(Clone, Copy)]
pub(crate) struct Source {
    pub kind: Kind,
    /// The mask of the tiers that are open at it.
    pub mask: u32,
}
