ghost use Rattle.std.specs.Prelude.{◌≡◌, ◌<◌, ◌≤◌, ◌↔◌, IsTrue, not, length, filter};
ghost use Rattle.tier_core.specs.Kinds.{phases, phase_at};
ghost use Rattle.tier_core.specs.Sides.{is_stretch};
ghost use Rattle.violation.specs.Phases.{is_closed, AreClosedOr};
ghost use Rattle.cert_check.specs.Possible.{all_open_in};

use crate::open::are_all_open;
use tier_core::{Constraint, Kind, has_bit};

/// Whether the phase of a stretch implication is closed exactly if some left tier is not in a mask.
fn is_phase_right(constraint: &Constraint, mask: u32, kind: &Kind, number: u32) -> bool
    requires { number < 32 }
    ensures { IsTrue result
        ↔ (is_closed (phase_at kind.now number) ≡ not (all_open_in mask constraint.now)) }
{
    let is_closed = !has_bit(kind.unmet, number) && !has_bit(kind.met, number);
    is_closed != are_all_open(mask, constraint.left.as_slice())
}

/// Whether each phase of the stretch implications among some constraints is closed exactly if some
/// left tier is not in a mask.
pub(crate) fn are_phases_right(constraints: &[Constraint], mask: u32, kind: &Kind) -> bool
    requires { length constraints.now ≤ 24 }
    ensures { IsTrue result
        ↔ AreClosedOr (all_open_in mask) (filter is_stretch constraints.now)
        (phases (length (filter is_stretch constraints.now)) kind.now) }
{
    let mut number = 0;
    for constraint in constraints {
        if constraint.is_stretch() {
            if !is_phase_right(constraint, mask, kind, number) {
                return false;
            }
            number += 1;
        }
    }
    true
}
