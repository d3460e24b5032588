ghost use Rattle.weight_law.specs.Count.{count_meaning};
ghost use Rattle.weight_law.specs.CountLaws.{count_lawful};

use crate::Weight;
use std::cmp::Ordering;

/// A number of violations, whose size is the number itself.
#[derive(Clone, Copy, Debug, PartialEq, Eq)]
pub struct Count(pub u32);

impl Weight for Count {
    ghost meaning = { count_meaning };

    ghost laws = { count_lawful };

    fn zero() -> Count {
        Count(0)
    }

    fn plus(&self, other: &Count) -> Count {
        Count(self.0 + other.0)
    }

    fn compare(&self, other: &Count) -> Ordering {
        self.0.cmp(&other.0)
    }
}
