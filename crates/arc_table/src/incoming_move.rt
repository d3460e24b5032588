use weight_law::Weight;

/// A reversed move: the state that it comes from, and its weight.
#[derive(Drop)]
pub struct IncomingMove<W: Weight> {
    pub source: u32,
    pub weight: W,
}
