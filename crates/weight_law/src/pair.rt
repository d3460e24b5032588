ghost use Rattle.weight_law.specs.Pair.{pair_meaning};
ghost use Rattle.weight_law.specs.PairLaws.{pair_lawful};

use crate::Weight;
use std::cmp::Ordering;

/// Two weights, compared by the first and then by the second. Its size is the greater of the two.
#[derive(Clone, Copy, Debug, PartialEq, Eq)]
pub struct Pair<A: Weight, B: Weight> {
    pub first: A,
    pub second: B,
}

impl<A: Weight, B: Weight> Weight for Pair<A, B> {
    ghost meaning = { pair_meaning A.meaning B.meaning };

    ghost laws = { pair_lawful A.laws B.laws };

    fn zero() -> Pair<A, B> {
        Pair {
            first: A::zero(),
            second: B::zero(),
        }
    }

    fn plus(&self, other: &Pair<A, B>) -> Pair<A, B> {
        Pair {
            first: self.first.plus(&other.first),
            second: self.second.plus(&other.second),
        }
    }

    fn compare(&self, other: &Pair<A, B>) -> Ordering {
        let by_first = self.first.compare(&other.first);
        let by_second = self.second.compare(&other.second);
        by_first.then(by_second)
    }
}
