//! Weights that can be added and compared, with the laws that least paths rest on.
//!
//! The tables of arcs, the least distances and the pruning to best paths are generic over `Weight`,
//! and use only the meaning and the laws of a weight. `Count` weighs a move by its violations of
//! one constraint, and `UnitWeight` weighs nothing. This crate depends on no other crate of the
//! workspace.
#![tactic(auto)]

ghost use Rattle.std.specs.Prelude.{◌≡◌, ◌+◌, ◌≤◌, IsTrue};
ghost use Rattle.weight_law.specs.Meaning.{Meaning, IsLawful, order_of};

mod count;
mod pair;
mod ranked;
mod unit_weight;

pub use count::Count;
pub use pair::Pair;
pub use ranked::Ranked;
use std::cmp::Ordering;
pub use unit_weight::UnitWeight;

/// The weight of a move. The weight of a path is the sum of its moves' weights, and `zero` if it
/// has no moves. No call allocates memory.
pub trait Weight: Copy {
    /// What weights mean: their `zero`, `size`, `sum` and order `below`, over values whose numbers
    /// are unlimited. `lawful` holds of every value of the type, and the laws hold for lawful ones.
    ghost meaning: { Meaning Self };

    /// The weight of no move. Its size is 0.
    fn zero() -> Self
        ensures { result ≡ meaning.zero };

    /// The sum of both weights. Their sizes together fit in 32 bits.
    fn plus(&self, other: &Self) -> Self
        requires { meaning.size self.now + meaning.size other.now ≤ u32.MAX }
        ensures { result ≡ meaning.sum self.now other.now };

    /// `Less` if this weight is below the other. Every value of the type is lawful.
    fn compare(&self, other: &Self) -> Ordering
        ensures order { result ≡ order_of meaning self.now other.now }
        ensures lawful { IsTrue (meaning.lawful self.now) }
        ensures other_lawful { IsTrue (meaning.lawful other.now) };

    /// The laws, which hold for all lawful values.
    ghost laws: { IsLawful meaning };
}

#[cfg(test)]
mod tests;
