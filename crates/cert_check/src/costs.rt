ghost use Rattle.std.specs.Prelude.{◌≡◌, ◌<◌, ◌≤◌, ◌++◌, ◌&&◌, length, All};
ghost use Rattle.std.specs.List.{list_all};
ghost use Rattle.tier_core.specs.Kinds.{Phase};
ghost use Rattle.tier_core.specs.KindShapes.{FitsShape};
ghost use Rattle.tier_core.specs.Tiers.{has_tier};
ghost use Rattle.tier_core.specs.Sides.{has_edge_type, edge_among};
ghost use Rattle.violation.specs.Conditions.{AreInColumn, IsOverTiers};
ghost use Rattle.violation.specs.Counts.{choice_types};
ghost use Rattle.violation.specs.Moves.{cost_of, costs, is_unmet_phase};
ghost use Rattle.violation.specs.Prefixes.{kind_of_bits};
ghost use Rattle.violation.specs.Problems.{last_place, last_stage};
ghost use Rattle.cert_check.specs.Opens.{IsOpenAt};
ghost use Rattle.cert_check.specs.Subjects.{IsReady, problem_of};

use crate::open::{are_all_open, open_tiers};
use crate::subject::Subject;
use tier_core::{Constraint, Event, Family, Kind, Sym, has_bit, has_edge_type};
use violation::{has_edge_among, is_counted_at};

/// Whether a type of which an event is chosen is an edge: a clash chooses on both sides, an
/// implication on the left.
fn is_edge_chosen(family: Family, left: &[Event], right: &[Event]) -> bool
    ensures { result ≡ has_edge_type (choice_types family left.now right.now) }
{
    match family {
        Family::Clash => has_edge_type(left) || has_edge_type(right),
        Family::Implication => has_edge_type(left),
    }
}

/// Whether a column ends an overlap of the interiors of all types.
fn ends_overlap(mask: u32, left: &[Event], right: &[Event], column: &[Sym]) -> bool
    requires left_tiers { All (λ e. e.tier < 12) left.now }
    requires right_tiers { All (λ e. e.tier < 12) right.now }
    requires left_in { AreInColumn left.now column.now }
    requires right_in { AreInColumn right.now column.now }
    ensures { result
        ≡ (list_all (λ e. has_tier mask e.tier) (left.now ++ right.now)
        && edge_among (left.now ++ right.now) column.now) }
{
    let are_open = are_all_open(mask, left) && are_all_open(mask, right);
    are_open && (has_edge_among(column, left) || has_edge_among(column, right))
}

/// Whether a column costs 1 under a constraint, if the tiers of a mask are open before it, and the
/// constraint's phase, if it has one, is unmet or not.
fn costs(constraint: &Constraint, mask: u32, is_unmet: bool, column: &[Sym]) -> bool
    requires over { IsOverTiers (length column.now) constraint.now }
    requires few { length column.now ≤ 12 }
    ensures { (phase : Phase) → is_unmet ≡ is_unmet_phase phase
        → result
        ≡ costs constraint.now.family constraint.now.left constraint.now.right (has_tier mask)
        phase column.now }
{
    let left = constraint.left.as_slice();
    let right = constraint.right.as_slice();
    if is_edge_chosen(constraint.family, left, right) {
        return is_counted_at(constraint.family, left, right, column);
    }
    match constraint.family {
        Family::Clash => ends_overlap(mask, left, right, column),
        Family::Implication => is_unmet && has_edge_among(column, left),
    }
}

/// The mask of the tiers that are open at a kind.
pub(crate) fn open_at(subject: &Subject, kind: &Kind) -> u32
    requires ready { IsReady subject.now }
    requires place { kind.now.place ≤ last_place (problem_of subject.now) }
    ensures { IsOpenAt subject.now kind.now result }
{
    open_tiers(
        subject.grammar.tiers.kinds.as_slice(),
        &subject.answer.form,
        kind,
    )
}

/// What a column costs from a kind of a stage under the last constraint of the stage; 0 at stage 0.
/// The tiers of the mask are open at the kind.
pub(crate) fn cost(subject: &Subject, stage: u32, kind: &Kind, mask: u32, column: &[Sym]) -> u32
    requires ready { IsReady subject.now }
    requires stage { stage ≤ last_stage (problem_of subject.now) }
    requires fits { FitsShape subject.now.shape.now stage kind.now }
    requires place { kind.now.place ≤ last_place (problem_of subject.now) }
    requires opened { IsOpenAt subject.now kind.now mask }
    requires width { length column.now ≡ (problem_of subject.now).tiers.width }
    ensures cost { result
        ≡ cost_of (problem_of subject.now) stage
        (kind_of_bits (problem_of subject.now) stage kind.now) column.now }
    ensures few { result ≤ 1 }
{
    if stage == 0 {
        return 0;
    }
    let number = stage as usize - 1;
    let is_unmet = has_bit(kind.unmet, subject.shape.phases[number]);
    if costs(&subject.grammar.constraints[number], mask, is_unmet, column) {
        1
    } else {
        0
    }
}
