ghost use Rattle.std.specs.Prelude.{IsTrue};

use tier_core::Class;
use weight_law::Weight;

/// A move from a state on each column of its class, to the state whose number is `target`.
#[derive(Drop)]
pub struct TableArc<W: Weight> {
    pub class: Class,
    pub target: u32,
    pub weight: W,
    pub ghost lawful: { IsTrue (W.meaning.lawful weight) },
}
