ghost use Rattle.std.specs.Prelude.{◌↔◌, ◌<◌, IsTrue};
ghost use Rattle.violation.specs.Conditions.{AreTiersBelow, IsCountable};

use tier_core::{Constraint, Event, Timeline, well_formed};

/// Whether the tiers of the types are below a number.
fn are_below(types: &[Event], width: u32) -> bool
    ensures { IsTrue result ↔ AreTiersBelow width types.now }
{
    types.iter().all(|event| event.tier < width)
}

/// Whether a timeline is well formed over so many tiers, and a constraint is over these tiers.
pub fn is_countable(constraint: &Constraint, timeline: &Timeline, width: u32) -> bool
    ensures { IsTrue result → IsCountable constraint.now.left constraint.now.right timeline.now }
{
    well_formed(timeline, width)
        && are_below(constraint.left.as_slice(), width)
        && are_below(constraint.right.as_slice(), width)
}
