ghost use Rattle.weight_law.specs.UnitWeight.{unit_meaning};
ghost use Rattle.weight_law.specs.UnitLaws.{unit_lawful};

use crate::Weight;
use std::cmp::Ordering;

/// The weight of moves that are not weighed. It has one value, of size 0.
#[derive(Clone, Copy, Debug, PartialEq, Eq)]
pub struct UnitWeight;

impl Weight for UnitWeight {
    ghost meaning = { unit_meaning };

    ghost laws = { unit_lawful };

    fn zero() -> UnitWeight {
        UnitWeight
    }

    fn plus(&self, _other: &UnitWeight) -> UnitWeight {
        UnitWeight
    }

    fn compare(&self, _other: &UnitWeight) -> Ordering {
        Ordering::Equal
    }
}
