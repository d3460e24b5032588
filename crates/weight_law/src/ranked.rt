ghost use Rattle.std.specs.Prelude.{◌≡◌, length};
ghost use Rattle.weight_law.specs.Ranked.{ranked_meaning};
ghost use Rattle.weight_law.specs.RankedLaws.{ranked_lawful};

use crate::Weight;
use std::cmp::Ordering;

/// The violations of 24 constraints, compared from the first constraint on. Its size is its
/// greatest part.
#[derive(Clone, Copy, Debug, PartialEq, Eq)]
pub struct Ranked {
    parts: [u32; 24],
}

impl Ranked {
    /// The weight with these parts.
    pub fn of_parts(parts: [u32; 24]) -> Ranked
        ensures { result.parts ≡ parts }
    {
        Ranked { parts }
    }

    /// The 24 parts, in the order in which they are compared.
    pub fn parts(&self) -> &[u32]
        ensures value { result.now ≡ self.now.parts }
        ensures number { length result.now ≡ 24 }
    {
        &self.parts
    }
}

impl Weight for Ranked {
    ghost meaning = { ranked_meaning };

    ghost laws = { ranked_lawful };

    fn zero() -> Ranked {
        Ranked { parts: [0; 24] }
    }

    fn plus(&self, other: &Ranked) -> Ranked {
        let mut parts = self.parts;
        for i in 0..24 {
            parts[i] = self.parts[i] + other.parts[i];
        }
        Ranked { parts }
    }

    #[tactic(auto, using(crate::specs::RankedLaws::order_by_tests))]
    fn compare(&self, other: &Ranked) -> Ordering {
        self.parts.cmp(&other.parts)
    }
}
