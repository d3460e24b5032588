ghost use Rattle.std.specs.Prelude.{◌≡◌, ℕ, ◌<◌, ◌≤◌, ◌++◌, ◌&&◌, length, All};
ghost use Rattle.std.specs.List.{list_all};
ghost use Rattle.tier_core.specs.Kinds as told;
ghost use Rattle.tier_core.specs.Tiers.{has_tier};
ghost use Rattle.tier_core.specs.Sides.{has_edge_type, edge_among};
ghost use Rattle.violation.specs.Conditions.{AreInColumn, IsOverTiers};
ghost use Rattle.violation.specs.Counts.{choice_types};
ghost use Rattle.violation.specs.Moves.{costs, is_unmet_phase};

use tier_core::{Constraint, Event, Family, Sym, has_bit, has_edge_type};
use violation::{has_edge_among, is_counted_at};

/// Whether the tiers of all types are in a mask.
pub(crate) fn are_all_in(mask: u16, types: &[Event]) -> bool
    requires { All (λ e. e.tier < 12) types.now }
    ensures { result ≡ list_all (λ e. has_tier mask e.tier) types.now }
{
    types.iter().all(|e| has_bit(mask as u32, e.tier))
}

/// Whether an event that a constraint chooses can be an edge: a clash chooses events on both sides,
/// an implication on the left.
pub(crate) fn is_edge_chosen(family: Family, left: &[Event], right: &[Event]) -> bool
    ensures { result ≡ has_edge_type (choice_types family left.now right.now) }
{
    match family {
        Family::Clash => has_edge_type(left) || has_edge_type(right),
        Family::Implication => has_edge_type(left),
    }
}

/// Whether a column ends an overlap of the interiors of all types, given which tiers are open before
/// it.
fn ends_overlap(opened: u16, left: &[Event], right: &[Event], column: &[Sym]) -> bool
    requires left_tiers { All (λ e. e.tier < 12) left.now }
    requires right_tiers { All (λ e. e.tier < 12) right.now }
    requires left_in { AreInColumn left.now column.now }
    requires right_in { AreInColumn right.now column.now }
    ensures { result ≡ (list_all (λ e. has_tier opened e.tier) (left.now ++ right.now)
        && edge_among (left.now ++ right.now) column.now) }
{
    let are_open = are_all_in(opened, left) && are_all_in(opened, right);
    are_open && (has_edge_among(column, left) || has_edge_among(column, right))
}

/// Whether a column costs 1 under a constraint, if the tiers in a mask are open before it.
/// `is_unmet` says whether the constraint is a stretch implication that is unmet before it.
pub(crate) fn costs(constraint: &Constraint, opened: u16, is_unmet: bool, column: &[Sym]) -> bool
    requires { IsOverTiers (length column.now) constraint.now }
    ensures { (phase : told.Phase) → is_unmet ≡ is_unmet_phase phase
        → result ≡ costs constraint.now.family constraint.now.left constraint.now.right
        (has_tier opened) phase column.now }
{
    let left = constraint.left.as_slice();
    let right = constraint.right.as_slice();
    if is_edge_chosen(constraint.family, left, right) {
        return is_counted_at(constraint.family, left, right, column);
    }
    match constraint.family {
        Family::Clash => ends_overlap(opened, left, right, column),
        Family::Implication => is_unmet && has_edge_among(column, left),
    }
}
