use tier_core::Timeline;

/// An entry that is heard: its number in the lexicon, counted from 0, and the first of its optimal
/// candidates with the surface.
#[derive(Drop)]
pub struct Hit {
    pub index: u32,
    pub example: Timeline,
}
