/// A letter of a grammar: the byte that it is written as, and the mask of the input tiers of its
/// sound. The lowest bit is that of the first input tier; other tiers have no bits.
#[derive(Clone, Copy, Debug, PartialEq, Eq)]
pub struct Letter {
    pub byte: u8,
    pub tiers: u16,
}
