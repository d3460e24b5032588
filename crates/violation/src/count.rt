ghost use Rattle.std.specs.Prelude.{◌≡◌, ℕ, ◌+◌, ◌<◌, ◌≤◌, ◌++◌, ◌&&◌, ◌||◌, not, true, false, length, slice_index_or};
ghost use Rattle.std.specs.List.{list_any};
ghost use Rattle.tier_core.specs.Sides.{has_edge_type, edge_among};
ghost use Rattle.tier_core.specs.declared.constraint.Family.TheVariants.{Implication, Clash};
ghost use Rattle.violation.specs.Columns.{edge_cost, opens_all, opens_interior, is_present};
ghost use Rattle.violation.specs.Conditions.{AreInColumn, IsCountable};
ghost use Rattle.violation.specs.Counts.{viol, choice_types};

use crate::column::{all_present, any_present, has_edge_among, opens_each, opens_some};
use tier_core::{Column, Constraint, Event, Family, Sym, Timeline, has_edge_type};

/// Whether a column decides a choice with an edge, and it is counted.
pub fn is_counted_at(family: Family, left: &[Event], right: &[Event], column: &[Sym]) -> bool
    requires left_in { AreInColumn left.now column.now }
    requires right_in { AreInColumn right.now column.now }
    ensures { result ≡ edge_cost family left.now right.now column.now }
{
    match family {
        Family::Clash => all_present(column, left) && all_present(column, right),
        Family::Implication => all_present(column, left) && !any_present(column, right),
    }
}

/// Counts the columns that decide a counted choice.
fn count_edges(family: Family, left: &[Event], right: &[Event], columns: &[Column]) -> u32
    requires countable { IsCountable left.now right.now columns.now }
    requires few { length columns.now ≤ 65536 }
    requires edge { has_edge_type (choice_types family left.now right.now) ≡ true }
    ensures { result ≡ viol family left.now right.now columns.now }
{
    let mut count = 0;
    for column in columns {
        if is_counted_at(family, left, right, column.syms()) {
            count += 1;
        }
    }
    count
}

/// Whether a column ends an overlap that is open before it.
fn ends_overlap(is_open: bool, left: &[Event], right: &[Event], column: &[Sym]) -> bool
    requires left_in { AreInColumn left.now column.now }
    requires right_in { AreInColumn right.now column.now }
    ensures { result
        ≡ (is_open && (edge_among left.now column.now || edge_among right.now column.now)) }
{
    is_open && (has_edge_among(column, left) || has_edge_among(column, right))
}

/// Whether the tiers of both sides are open after a column.
fn opens_both(left: &[Event], right: &[Event], column: &[Sym]) -> bool
    requires left_in { AreInColumn left.now column.now }
    requires right_in { AreInColumn right.now column.now }
    ensures { result ≡ (opens_all left.now column.now && opens_all right.now column.now) }
{
    opens_each(column, left) && opens_each(column, right)
}

/// Whether a column ends a stretch that has not been met.
fn ends_unmet(is_open: bool, edge: bool, is_met: bool) -> bool
    ensures { result ≡ ((is_open && edge) && not is_met) }
{
    is_open && edge && !is_met
}

/// Whether a stretch that is open after a column has been met; at an edge the column begins a new
/// one.
fn is_met_after(edge: bool, is_met: bool, right: &[Event], column: &[Sym]) -> bool
    requires { AreInColumn right.now column.now }
    ensures { result
        ≡
        (list_any (opens_interior column.now) right.now ||
        (not edge && (is_met || list_any (is_present column.now) right.now))) }
{
    opens_some(column, right) || (!edge && (is_met || any_present(column, right)))
}

/// Counts the columns that end an overlap of all interiors.
fn count_overlaps(left: &[Event], right: &[Event], columns: &[Column]) -> u32
    requires countable { IsCountable left.now right.now columns.now }
    requires few { length columns.now ≤ 65536 }
    requires interiors { has_edge_type (left.now ++ right.now) ≡ false }
    ensures { result ≡ viol Clash left.now right.now columns.now }
{
    let mut count = 0;
    let mut is_open = false;
    for column in columns {
        let syms = column.syms();
        if ends_overlap(is_open, left, right, syms) {
            count += 1;
        }
        is_open = opens_both(left, right, syms);
    }
    count
}

/// Counts the columns that end a stretch of the left interiors that no right event meets.
fn count_stretches(left: &[Event], right: &[Event], columns: &[Column]) -> u32
    requires countable { IsCountable left.now right.now columns.now }
    requires few { length columns.now ≤ 65536 }
    requires interiors { has_edge_type left.now ≡ false }
    ensures { result ≡ viol Implication left.now right.now columns.now }
{
    let mut count = 0;
    let mut is_open = false;
    let mut is_met = false;
    for column in columns {
        let syms = column.syms();
        let edge = has_edge_among(syms, left);
        if ends_unmet(is_open, edge, is_met) {
            count += 1;
        }
        is_met = is_met_after(edge, is_met, right, syms);
        is_open = opens_each(syms, left);
    }
    count
}

/// How many choices a constraint counts on a timeline.
pub fn violations(timeline: &Timeline, constraint: &Constraint) -> u32
    requires countable { IsCountable constraint.now.left constraint.now.right timeline.now }
    requires few { length timeline.now ≤ 65536 }
    ensures { result
        ≡ viol constraint.now.family constraint.now.left constraint.now.right timeline.now }
{
    let left = constraint.left.as_slice();
    let right = constraint.right.as_slice();
    let columns = timeline.columns();
    match constraint.family {
        Family::Clash => {
            if has_edge_type(left) || has_edge_type(right) {
                count_edges(Family::Clash, left, right, columns)
            } else {
                count_overlaps(left, right, columns)
            }
        }
        Family::Implication => {
            if has_edge_type(left) {
                count_edges(Family::Implication, left, right, columns)
            } else {
                count_stretches(left, right, columns)
            }
        }
    }
}
