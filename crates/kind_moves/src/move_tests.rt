ghost use Rattle.std.specs.Prelude.{◌≡◌, ℕ, ◌<◌, ◌≤◌, ◌&&◌, ◌||◌, not, All, List, length};
ghost use Rattle.tier_core.specs.declared.sym.Sym.{Sym};
ghost use Rattle.tier_core.specs.Kinds as told;
ghost use Rattle.tier_core.specs.Classes.{sets_of, has};
ghost use Rattle.tier_core.specs.Scan.{opens};
ghost use Rattle.tier_core.specs.Tiers.{has_tier};
ghost use Rattle.tier_core.specs.Timelines.{symbol};
ghost use Rattle.symbol_class.specs.Parts.{differs};
ghost use Rattle.violation.specs.Conditions.{IsOverTiers};
ghost use Rattle.violation.specs.Moves.{costs, is_unmet_phase};
ghost use Rattle.kind_moves.specs.declared.ask.Ask.TheVariants.{Present, Absent, NoEdge, Open, NoInteriorOpen, NoEdgePresent};
ghost use Rattle.kind_moves.specs.Asks.{answers};
ghost use Rattle.kind_moves.specs.Fitting.{HasAll};

use crate::ask::Ask;
use crate::asked::narrowed_by;
use crate::boxes::{inside, never, outside, whole};
use crate::cost::{are_all_in, is_edge_chosen};
use symbol_class::{Difference, restrict};
use tier_core::{Class, Constraint, Event, Family};

/// The test whether a tier is open after a column, given the class of all columns.
pub(crate) fn opens_at(all: &Class, tier: u32) -> Difference
    requires tier { tier < length (sets_of all.now) }
    requires all { HasAll all.now }
    ensures width { length (sets_of result.within) ≡ length (sets_of all.now) }
    ensures columns { (column : List Sym) → length column ≡ length (sets_of all.now)
        → differs result column ≡ opens (symbol column tier) }
{
    inside(&restrict(all, tier, 22))
}

/// The test whether all left tiers of a stretch implication are open after a column, and with them
/// an interior on the right, which makes it met.
pub(crate) fn opens_met(width: u32, constraint: &Constraint) -> Difference
    requires some { 1 ≤ width }
    requires few { width ≤ 12 }
    requires over { IsOverTiers width constraint.now }
    ensures width { length (sets_of result.within) ≡ width }
    ensures columns { (column : List Sym) → length column ≡ width
        → differs result column ≡ (answers Open constraint.now.left column
        && not (answers NoInteriorOpen constraint.now.right column)) }
{
    let within = narrowed_by(&whole(width), Ask::Open, constraint.left.as_slice());
    Difference {
        within,
        without: narrowed_by(&within, Ask::NoInteriorOpen, constraint.right.as_slice()),
    }
}

/// The test whether a column makes a stretch implication met although it opens no interior on the
/// right: all left tiers are open after the column, it has no edge on them, and the stretch was met
/// before it or an event of a right type is present at it.
pub(crate) fn goes_on_met(width: u32, constraint: &Constraint, was_met: bool) -> Difference
    requires some { 1 ≤ width }
    requires few { width ≤ 12 }
    requires over { IsOverTiers width constraint.now }
    ensures width { length (sets_of result.within) ≡ width }
    ensures columns { (column : List Sym) → length column ≡ width
        → differs result column ≡ (((answers Open constraint.now.left column
        && answers NoInteriorOpen constraint.now.right column)
        && answers NoEdge constraint.now.left column)
        && (was_met || not (answers NoEdgePresent constraint.now.right column))) }
{
    let left = constraint.left.as_slice();
    let right = constraint.right.as_slice();
    let open = narrowed_by(&whole(width), Ask::Open, left);
    let unmet = narrowed_by(&open, Ask::NoInteriorOpen, right);
    let within = narrowed_by(&unmet, Ask::NoEdge, left);
    if was_met {
        return inside(&within);
    }
    Difference {
        within,
        without: narrowed_by(&within, Ask::NoEdgePresent, right),
    }
}
