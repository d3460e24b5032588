ghost use Rattle.std.specs.Prelude.{◌≡◌, ◌<◌, ◌≤◌, ◌&&◌, ◌++◌, true, false, All, List, OnOk, length};
ghost use Rattle.std.specs.List.{list_all};
ghost use Rattle.tier_core.specs.declared.sym.Sym.{Sym};
ghost use Rattle.tier_core.specs.Classes.{sets_of, has};
ghost use Rattle.tier_core.specs.Sides.{has_edge_type, is_stretch};
ghost use Rattle.tier_core.specs.Timelines.{symbol};
ghost use Rattle.violation.specs.Conditions.{IsOverTiers};
ghost use Rattle.cert_check.specs.Alike.{AreAlikeFor};
ghost use Rattle.cert_check.specs.Boxes.{is_so};
ghost use Rattle.cert_check.specs.Tests.{AddsTests};

use crate::boxes::{Asked, box_of};
use std::alloc::AllocError;
use symbol_class::meet;
use tier_core::{Class, Constraint, Event, Family, has_edge_type};

/// The class of the columns that have on both sides what is asked.
fn both_sides(width: u32, left: &[Event], at_left: Asked, right: &[Event], at_right: Asked) -> Class
    requires some { 1 ≤ width }
    requires few { width ≤ 12 }
    requires left_tiers { All (λ e. e.tier < width) left.now }
    requires right_tiers { All (λ e. e.tier < width) right.now }
    ensures width { length (sets_of result) ≡ width }
    ensures columns { (column : List Sym) → length column ≡ width
        → has result column
        ≡
        (list_all (λ e. is_so at_left e.part (symbol column e.tier)) left.now && list_all
        (λ e. is_so at_right e.part (symbol column e.tier)) right.now) }
{
    meet(
        &box_of(width, left, at_left),
        &box_of(width, right, at_right),
    )
}

/// Puts the tests of a stretch implication at the end of a list.
fn push_stretch(
    tests: &mut Vec<Class>,
    width: u32,
    constraint: &Constraint,
) -> Result<(), AllocError>
    requires some { 1 ≤ width }
    requires few { width ≤ 12 }
    requires over { IsOverTiers width constraint.now }
    requires stretch { is_stretch constraint.now ≡ true }
    ensures { OnOk result
        (AddsTests width tests.old.items tests.new.items (AreAlikeFor constraint.now)) }
{
    let left = constraint.left.as_slice();
    let right = constraint.right.as_slice();
    tests.push(box_of(width, left, Asked::Open))?;
    tests.push(box_of(width, left, Asked::NoEdge))?;
    tests.push(box_of(width, right, Asked::Absent))?;
    tests.push(box_of(width, right, Asked::NotInside))?;
    Ok(())
}

/// Whether a type of one of the two sides is an edge.
fn is_edge_among(left: &[Event], right: &[Event]) -> bool
    ensures { result ≡ has_edge_type (left.now ++ right.now) }
{
    has_edge_type(left) || has_edge_type(right)
}

/// The one test of a constraint that is not a stretch implication: whether it costs 1 on a column, if
/// its tiers are open before it.
fn only_test(width: u32, constraint: &Constraint) -> Class
    requires some { 1 ≤ width }
    requires few { width ≤ 12 }
    requires over { IsOverTiers width constraint.now }
    requires other { is_stretch constraint.now ≡ false }
    ensures width { length (sets_of result) ≡ width }
    ensures alike { (c d : List Sym) → length c ≡ width → length d ≡ width
        → has result c ≡ has result d → AreAlikeFor constraint.now c d }
{
    let left = constraint.left.as_slice();
    let right = constraint.right.as_slice();
    match constraint.family {
        Family::Implication => both_sides(width, left, Asked::Present, right, Asked::Absent),
        Family::Clash => {
            if is_edge_among(left, right) {
                both_sides(width, left, Asked::Present, right, Asked::Present)
            } else {
                both_sides(width, left, Asked::NoEdge, right, Asked::NoEdge)
            }
        }
    }
}

/// Puts the tests of a constraint at the end of a list.
pub(crate) fn push_tests(
    tests: &mut Vec<Class>,
    width: u32,
    constraint: &Constraint,
) -> Result<(), AllocError>
    requires some { 1 ≤ width }
    requires few { width ≤ 12 }
    requires over { IsOverTiers width constraint.now }
    ensures { OnOk result
        (AddsTests width tests.old.items tests.new.items (AreAlikeFor constraint.now)) }
{
    if constraint.is_stretch() {
        push_stretch(tests, width, constraint)?;
    } else {
        tests.push(only_test(width, constraint))?;
    }
    Ok(())
}
