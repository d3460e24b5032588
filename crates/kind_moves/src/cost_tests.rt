ghost use Rattle.std.specs.Prelude.{◌≡◌, ◌<◌, ◌≤◌, ◌&&◌, ◌++◌, All, List, length};
ghost use Rattle.std.specs.List.{list_all};
ghost use Rattle.tier_core.specs.declared.sym.Sym.{Sym};
ghost use Rattle.tier_core.specs.Kinds as told;
ghost use Rattle.tier_core.specs.Classes.{sets_of};
ghost use Rattle.tier_core.specs.Sides.{edge_among};
ghost use Rattle.tier_core.specs.Tiers.{has_tier};
ghost use Rattle.symbol_class.specs.Parts.{differs};
ghost use Rattle.violation.specs.Columns.{edge_cost};
ghost use Rattle.violation.specs.Conditions.{AreTiersBelow, IsOverTiers};
ghost use Rattle.violation.specs.Moves.{costs, is_unmet_phase};

use crate::ask::Ask;
use crate::asked::narrowed_by;
use crate::boxes::{inside, never, outside, whole};
use crate::cost::{are_all_in, is_edge_chosen};
use symbol_class::Difference;
use tier_core::{Constraint, Event, Family};

/// The test whether a column costs 1 under a constraint that chooses some edge.
fn counted_at(width: u32, family: Family, left: &[Event], right: &[Event]) -> Difference
    requires some { 1 ≤ width }
    requires few { width ≤ 12 }
    requires left { AreTiersBelow width left.now }
    requires right { AreTiersBelow width right.now }
    ensures width { length (sets_of result.within) ≡ width }
    ensures columns { (column : List Sym) → length column ≡ width
        → differs result column ≡ edge_cost family left.now right.now column }
{
    let present = narrowed_by(&whole(width), Ask::Present, left);
    match family {
        Family::Clash => inside(&narrowed_by(&present, Ask::Present, right)),
        Family::Implication => inside(&narrowed_by(&present, Ask::Absent, right)),
    }
}

/// The test whether a column ends an overlap of the interiors of all types, if the tiers in a mask
/// are open before it.
fn overlap_ends(width: u32, opened: u16, left: &[Event], right: &[Event]) -> Difference
    requires some { 1 ≤ width }
    requires few { width ≤ 12 }
    requires left { AreTiersBelow width left.now }
    requires right { AreTiersBelow width right.now }
    ensures width { length (sets_of result.within) ≡ width }
    ensures columns { (column : List Sym) → length column ≡ width
        → differs result column ≡ (list_all (λ e. has_tier opened e.tier) (left.now ++ right.now)
        && edge_among (left.now ++ right.now) column) }
{
    if !are_all_in(opened, left) {
        return never(width);
    }
    if !are_all_in(opened, right) {
        return never(width);
    }
    let still = narrowed_by(&whole(width), Ask::NoEdge, left);
    outside(&narrowed_by(&still, Ask::NoEdge, right))
}

/// The test whether a column ends a stretch on the left that is unmet. No column passes it if the
/// stretch is not unmet before it.
fn stretch_ends(width: u32, is_unmet: bool, left: &[Event]) -> Difference
    requires some { 1 ≤ width }
    requires few { width ≤ 12 }
    requires left { AreTiersBelow width left.now }
    ensures width { length (sets_of result.within) ≡ width }
    ensures columns { (column : List Sym) → length column ≡ width
        → differs result column ≡ (is_unmet && edge_among left.now column) }
{
    if !is_unmet {
        return never(width);
    }
    outside(&narrowed_by(&whole(width), Ask::NoEdge, left))
}

/// The test whether a column costs 1 under a constraint, if the tiers in a mask are open before it.
/// `is_unmet` says whether the constraint is a stretch implication that is unmet before it.
pub(crate) fn cost_test(
    width: u32,
    constraint: &Constraint,
    opened: u16,
    is_unmet: bool,
) -> Difference
    requires some { 1 ≤ width }
    requires few { width ≤ 12 }
    requires over { IsOverTiers width constraint.now }
    ensures width { length (sets_of result.within) ≡ width }
    ensures columns { (phase : told.Phase) → is_unmet ≡ is_unmet_phase phase → (column : List Sym)
        → length column ≡ width → differs result column
        ≡ costs constraint.now.family constraint.now.left constraint.now.right
        (has_tier opened) phase column }
{
    let left = constraint.left.as_slice();
    let right = constraint.right.as_slice();
    if is_edge_chosen(constraint.family, left, right) {
        return counted_at(width, constraint.family, left, right);
    }
    match constraint.family {
        Family::Clash => overlap_ends(width, opened, left, right),
        Family::Implication => stretch_ends(width, is_unmet, left),
    }
}
