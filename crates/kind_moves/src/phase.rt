ghost use Rattle.std.specs.Prelude.{◌≡◌, ℕ, ◌+◌, ◌<◌, ◌≤◌, ◌^◌, ◌||◌, false, if◌then◌else◌, length, filter, All};
ghost use Rattle.std.specs.List.{list_any};
ghost use Rattle.tier_core.specs.Kinds as told;
ghost use Rattle.tier_core.specs.Kinds.{phases};
ghost use Rattle.tier_core.specs.Tiers.{has_tier};
ghost use Rattle.tier_core.specs.Sides.{edge_among, is_stretch};
ghost use Rattle.violation.specs.Columns.{is_present, opens_interior};
ghost use Rattle.violation.specs.Conditions.{AreInColumn, IsOverTiers};
ghost use Rattle.violation.specs.Moves.{is_unmet_phase, is_met_phase, next_phase, next_phases};
ghost use Rattle.tier_core.specs.PhaseBits.{phases_by};
ghost use Rattle.kind_moves.specs.Phases.{phase_of};

use crate::phase_masks::PhaseMasks;
use tier_core::{Constraint, Event, Kind, Sym, has_bit, with_bit};
use violation::{any_present, has_edge_among, opens_each, opens_some};

/// The phase of a stretch implication.
#[derive(Clone, Copy, Debug, PartialEq, Eq)]
enum Phase {
    /// Some left tier is not open.
    Closed,
    /// All left tiers are open, and no event of a right type has met them since their last edge.
    Unmet,
    /// All left tiers are open, and an event of a right type has met them since their last edge.
    Met,
}

impl Phase {
    fn is_unmet(self) -> bool
        ensures { result ≡ is_unmet_phase (phase_of self) }
    {
        matches!(self, Phase::Unmet)
    }

    fn is_met(self) -> bool
        ensures { result ≡ is_met_phase (phase_of self) }
    {
        matches!(self, Phase::Met)
    }
}

/// Whether a stretch that is open after a column has been met by then.
fn is_met_after(left: &[Event], right: &[Event], was_met: bool, column: &[Sym]) -> bool
    requires left_in { AreInColumn left.now column.now }
    requires right_in { AreInColumn right.now column.now }
    ensures { result ≡ ((if edge_among left.now column.now then false else
        (was_met || list_any (is_present column.now) right.now))
        || list_any (opens_interior column.now) right.now) }
{
    let goes_on = !has_edge_among(column, left);
    (goes_on && (was_met || any_present(column, right))) || opens_some(column, right)
}

/// The phase of a stretch implication after a column, given whether it was met before it.
fn phase_after(constraint: &Constraint, was_met: bool, column: &[Sym]) -> Phase
    requires { IsOverTiers (length column.now) constraint.now }
    ensures { (phase : told.Phase) → was_met ≡ is_met_phase phase
        → phase_of result ≡ next_phase constraint.now.left constraint.now.right phase column.now }
{
    let left = constraint.left.as_slice();
    if !opens_each(column, left) {
        return Phase::Closed;
    }
    if is_met_after(left, constraint.right.as_slice(), was_met, column) {
        return Phase::Met;
    }
    Phase::Unmet
}

/// The phases of the stretch implications among some constraints, after a column.
pub(crate) fn next_phases(constraints: &[Constraint], kind: &Kind, column: &[Sym]) -> PhaseMasks
    requires few { length constraints.now ≤ 24 }
    requires over { All (IsOverTiers (length column.now)) constraints.now }
    ensures phases { phases_by (length (filter is_stretch constraints.now)) result.unmet
        result.met ≡ next_phases (filter is_stretch constraints.now)
        (phases (length (filter is_stretch constraints.now)) kind.now) column.now }
    ensures unmet { result.unmet < 2 ^ length (filter is_stretch constraints.now) }
    ensures met { result.met < 2 ^ length (filter is_stretch constraints.now) }
{
    let mut unmet = 0;
    let mut met = 0;
    let mut next = 0;
    for constraint in constraints {
        if constraint.is_stretch() {
            let phase = phase_after(constraint, has_bit(kind.met, next), column);
            unmet = with_bit(unmet, next, phase.is_unmet());
            met = with_bit(met, next, phase.is_met());
            next += 1;
        }
    }
    PhaseMasks { unmet, met }
}
