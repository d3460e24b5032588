ghost use Rattle.std.specs.Prelude.{◌≡◌, ℕ, ◌+◌, ◌<◌, ◌≤◌, ◌^◌, ◌||◌, false, if◌then◌else◌, length, filter, map, All};
ghost use Rattle.std.specs.List.{list_any};
ghost use Rattle.tier_core.specs.Kinds.{Phase, AreStretchesBelow, open_tiers, phases};
ghost use Rattle.tier_core.specs.KindShapes.{FitsShape};
ghost use Rattle.tier_core.specs.Scan.{opens};
ghost use Rattle.tier_core.specs.Sides.{edge_among, is_stretch};
ghost use Rattle.tier_core.specs.Tiers.{is_free, is_input, numbers_from};
ghost use Rattle.tier_core.specs.Timelines.{symbol, has_edge};
ghost use Rattle.violation.specs.Columns.{is_present, opens_interior};
ghost use Rattle.violation.specs.Conditions.{AreInColumn, IsOverTiers};
ghost use Rattle.violation.specs.Moves.{is_unmet_phase, is_met_phase, next_kind, next_phase, next_phases};
ghost use Rattle.violation.specs.Prefixes.{kind_of_bits};
ghost use Rattle.violation.specs.Problems.{last_place, last_stage};
ghost use Rattle.cert_check.specs.Faults.{TellsKind};
ghost use Rattle.cert_check.specs.Subjects.{IsReady, problem_of};

use crate::subject::Subject;
use tier_core::{Constraint, Event, Kind, Sym, TierKind, has_bit, with_bit};
use violation::{any_present, has_edge_among, has_input_edge, opens_each, opens_some};

/// The bits of the free tiers that are open after a column.
fn opened_after(kinds: &[TierKind], column: &[Sym]) -> u16
    requires few { length kinds.now ≤ 12 }
    requires width { length column.now ≡ length kinds.now }
    ensures flags { open_tiers (length (numbers_from is_free 0 kinds.now)) result
        ≡ map (λ t. opens (symbol column.now t)) (numbers_from is_free 0 kinds.now) }
    ensures within { result < 2 ^ length (numbers_from is_free 0 kinds.now) }
{
    let mut opened = 0;
    let mut free = 0;
    for tier in 0..kinds.len() {
        if kinds[tier].is_free() {
            opened = with_bit(opened, free, column[tier].is_open_after());
            free += 1;
        }
    }
    opened as u16
}

/// Whether a stretch that is open after a column is met by then.
fn is_stretch_met(left: &[Event], right: &[Event], was_met: bool, column: &[Sym]) -> bool
    requires left_in { AreInColumn left.now column.now }
    requires right_in { AreInColumn right.now column.now }
    ensures { result
        ≡
        ((if edge_among left.now column.now then false else
        (was_met || list_any (is_present column.now) right.now))
        || list_any (opens_interior column.now) right.now) }
{
    let goes_on = !has_edge_among(column, left);
    (goes_on && (was_met || any_present(column, right))) || opens_some(column, right)
}

/// Whether a stretch implication is met after a column, if it was met before the column or was not.
fn is_met_after(constraint: &Constraint, was_met: bool, column: &[Sym]) -> bool
    requires { IsOverTiers (length column.now) constraint.now }
    ensures { (phase : Phase) → was_met ≡ is_met_phase phase
        → result
        ≡ is_met_phase (next_phase constraint.now.left constraint.now.right phase column.now) }
{
    let left = constraint.left.as_slice();
    if !opens_each(column, left) {
        return false;
    }
    is_stretch_met(left, constraint.right.as_slice(), was_met, column)
}

/// Whether a stretch implication is unmet after a column, if it was met before the column or was not.
fn is_unmet_after(constraint: &Constraint, was_met: bool, column: &[Sym]) -> bool
    requires { IsOverTiers (length column.now) constraint.now }
    ensures { (phase : Phase) → was_met ≡ is_met_phase phase
        → result
        ≡ is_unmet_phase (next_phase constraint.now.left constraint.now.right phase column.now) }
{
    let left = constraint.left.as_slice();
    if !opens_each(column, left) {
        return false;
    }
    !is_stretch_met(left, constraint.right.as_slice(), was_met, column)
}

/// A kind at a place, with these bits of its open tiers, and with the phases after a column of the
/// stretch implications among some constraints.
fn with_phases(
    constraints: &[Constraint],
    kind: &Kind,
    column: &[Sym],
    place: u32,
    opened: u16,
) -> Kind
    requires few { length constraints.now ≤ 24 }
    requires over { All (IsOverTiers (length column.now)) constraints.now }
    ensures place { result.place ≡ place }
    ensures opened { result.opened ≡ opened }
    ensures phases { phases (length (filter is_stretch constraints.now)) result
        ≡ next_phases (filter is_stretch constraints.now)
        (phases (length (filter is_stretch constraints.now)) kind.now) column.now }
    ensures stretches { AreStretchesBelow (length (filter is_stretch constraints.now)) result }
{
    let mut unmet = 0;
    let mut met = 0;
    let mut next = 0;
    for constraint in constraints {
        if constraint.is_stretch() {
            let was_met = has_bit(kind.met, next);
            unmet = with_bit(unmet, next, is_unmet_after(constraint, was_met, column));
            met = with_bit(met, next, is_met_after(constraint, was_met, column));
            next += 1;
        }
    }
    Kind {
        place,
        opened,
        unmet,
        met,
    }
}

/// The place after a column.
fn place_after(kinds: &[TierKind], place: u32, column: &[Sym]) -> u32
    requires width { length column.now ≡ length kinds.now }
    requires place { place ≤ 64 }
    ensures { result
        ≡ place
        + (if has_edge (map (symbol column.now) (numbers_from is_input 0 kinds.now))
        then 1 else 0) }
{
    if has_input_edge(kinds, column) {
        place + 1
    } else {
        place
    }
}

/// The kind to which a column leads from a kind of a stage, if it fits.
pub(crate) fn next_kind(subject: &Subject, stage: u32, kind: &Kind, column: &[Sym]) -> Kind
    requires ready { IsReady subject.now }
    requires stage { stage ≤ last_stage (problem_of subject.now) }
    requires place { kind.now.place ≤ last_place (problem_of subject.now) }
    requires width { length column.now ≡ (problem_of subject.now).tiers.width }
    ensures { TellsKind (problem_of subject.now) stage result
        (next_kind (problem_of subject.now) stage
        (kind_of_bits (problem_of subject.now) stage kind.now) column.now) }
{
    let kinds = subject.grammar.tiers.kinds.as_slice();
    let first = &subject.grammar.constraints.as_slice()[..stage as usize];
    let place = place_after(kinds, kind.place, column);
    with_phases(first, kind, column, place, opened_after(kinds, column))
}
