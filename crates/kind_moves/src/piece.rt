use tier_core::{Class, Kind};

/// A class of columns that do the same from a kind: each of them leads to `target` and costs `cost`.
#[derive(Clone, Copy, Debug, PartialEq, Eq)]
pub struct Piece {
    pub class: Class,
    pub target: Kind,
    pub cost: u32,
}
