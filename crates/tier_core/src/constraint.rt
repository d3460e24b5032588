ghost use Rattle.std.specs.Prelude.{◌≡◌};

use crate::event::{EventList, has_edge_type};

/// The two families of constraints (Eisner 1997).
#[derive(Clone, Copy, Debug, PartialEq, Eq)]
pub enum Family {
    /// Each meet of events of all left types requires an event of some right type that meets it.
    Implication,
    /// No events of all the types of both sides may have a meet.
    Clash,
}

impl Family {
    ghost use Rattle.tier_core.specs.Sides.{is_implication};

    /// Whether it is the family of implications.
    pub fn is_implication(self) -> bool
        ensures { result ≡ is_implication self }
    {
        matches!(self, Family::Implication)
    }
}

/// A constraint: a family, and the types of events on its two sides.
#[derive(Drop)]
pub struct Constraint {
    pub name: String,
    pub family: Family,
    pub left: EventList,
    pub right: EventList,
}

impl Constraint {
    ghost use Rattle.tier_core.specs.Sides.{is_stretch};

    /// Whether it is a stretch implication: an implication whose left side has only interiors.
    pub fn is_stretch(&self) -> bool
        ensures { result ≡ is_stretch self.now }
    {
        self.family.is_implication() && !has_edge_type(self.left.as_slice())
    }
}
