ghost use Rattle.std.specs.Prelude.{◌≡◌, ◌≢◌, ◌≤◌, ◌++◌, ◌∷◌, [], AllPairs, IfOk, IsSorted, List, OnOk, map};
ghost use Rattle.tier_core.specs.declared.sym.Sym.{Sym};
ghost use Rattle.symbol_class.specs.ClassOrder.{class_cmp};
ghost use Rattle.symbol_class.specs.Held.{some_has, width_of, ArePieces};
ghost use Rattle.symbol_class.specs.Joined.{DifferTwice};
ghost use Rattle.answer_text.specs.Right.{arc_cmp};
ghost use Rattle.answer_text.specs.ArcClasses.{arc_classes};
ghost use Rattle.kind_orders.specs.JoinedLines.{arc_to, AddsJoined, AreJoinedFrom};

use answer_text::ArcLine;
use std::alloc::{AllocError, Global};
use symbol_class::{class_cmp, join};
use tier_core::Class;

/// The classes of lines to one target, which are to be joined.
#[derive(Drop)]
struct Group {
    target: u32,
    classes: Vec<Class>,
}

/// Puts arcs to a target at the end of a list, one on each class.
pub(crate) fn push_arcs(
    arcs: &mut Vec<ArcLine>,
    target: u32,
    classes: &[Class],
) -> Result<(), AllocError>
    ensures { OnOk result
        (arcs.new.items ≡ arcs.old.items ++ map (arc_to target) classes.now) }
{
    for class in classes {
        arcs.push(ArcLine {
            target,
            class: *class,
        })?;
    }
    Ok(())
}

/// Classes that hold the columns of the given ones, any two of which differ in the sets of at least
/// two tiers, and which are sorted.
fn joined_classes(alloc: Global, classes: &[Class]) -> Result<Vec<Class>, AllocError>
    requires { ArePieces (width_of classes.now) classes.now }
    ensures pieces { IfOk result (λ joined. ArePieces (width_of classes.now) joined.items) }
    ensures columns { IfOk result
        (λ joined. (column : List Sym)
        → some_has joined.items column ≡ some_has classes.now column) }
    ensures differ { IfOk result (λ joined. AllPairs DifferTwice joined.items) }
    ensures sorted { IfOk result (λ joined. IsSorted class_cmp joined.items) }
{
    let mut joined = match join(alloc, classes) {
        Ok(joined) => joined,
        Err(_) => return Err(AllocError),
    };
    joined.sort_unstable_by(|a, b| class_cmp(a, b));
    Ok(joined)
}

/// Puts arcs to a target at the end of a list, on classes that are joined first and sorted. One
/// class is as it is.
fn push_joined(
    alloc: Global,
    arcs: &mut Vec<ArcLine>,
    target: u32,
    classes: &[Class],
) -> Result<(), AllocError>
    requires { ArePieces (width_of classes.now) classes.now }
    ensures { OnOk result (AddsJoined target classes.now arcs.old.items arcs.new.items) }
{
    if classes.len() < 2 {
        return push_arcs(arcs, target, classes);
    }
    let joined = joined_classes(alloc, classes)?;
    push_arcs(arcs, target, &joined)
}

/// The group of a line that is the first to its target, in the room of another group.
fn next_group(before: Group, line: &ArcLine) -> Result<Group, AllocError>
    ensures target { IfOk result (λ group. group.target ≡ line.now.target) }
    ensures classes { IfOk result (λ group. group.classes.items ≡ line.now.class ∷ []) }
{
    let Group { mut classes, .. } = before;
    classes.clear();
    classes.push(line.class)?;
    Ok(Group {
        target: line.target,
        classes,
    })
}

/// The group with the class of one more line.
fn with_class(group: Group, line: &ArcLine) -> Result<Group, AllocError>
    ensures target { IfOk result (λ more. more.target ≡ group.target) }
    ensures classes { IfOk result
        (λ more. more.classes.items ≡ group.classes.items ++ line.now.class ∷ []) }
{
    let Group {
        target,
        mut classes,
    } = group;
    classes.push(line.class)?;
    Ok(Group { target, classes })
}

/// The group after one more line. If the line has the target of the group, its class joins it. If it
/// has another target, the group is at an end: its arcs are put at the end of a list, and the line
/// begins the next group.
fn group_after(
    alloc: Global,
    arcs: &mut Vec<ArcLine>,
    group: Group,
    line: &ArcLine,
) -> Result<Group, AllocError>
    requires { ArePieces (width_of group.classes.items) group.classes.items }
    ensures same { line.now.target ≡ group.target
        → IfOk result
        (λ next. (arcs.new.items ≡ arcs.old.items) × (next.target ≡ group.target)
        × (next.classes.items ≡ group.classes.items ++ line.now.class ∷ [])) }
    ensures other { line.now.target ≢ group.target
        → IfOk result
        (λ next. AddsJoined group.target group.classes.items arcs.old.items arcs.new.items
        × (next.target ≡ line.now.target) × (next.classes.items ≡ line.now.class ∷ [])) }
{
    if line.target == group.target {
        return with_class(group, line);
    }
    push_joined(alloc, arcs, group.target, &group.classes)?;
    next_group(group, line)
}

/// The arcs of lines that are sorted by target, where the classes of the lines to one target are
/// joined. They are sorted by target and then by class.
pub(crate) fn joined_lines(alloc: Global, lines: &[ArcLine]) -> Result<Vec<ArcLine>, AllocError>
    requires pieces { ArePieces (width_of (arc_classes lines.now)) (arc_classes lines.now) }
    requires sorted { AllPairs (λ a b. a.target ≤ b.target) lines.now }
    ensures joined { IfOk result (λ arcs. AreJoinedFrom lines.now arcs.items) }
    ensures sorted { IfOk result (λ arcs. IsSorted arc_cmp arcs.items) }
{
    let mut arcs = Vec::new(alloc);
    let mut group = Group {
        target: 0,
        classes: Vec::new(alloc),
    };
    for line in lines {
        group = group_after(alloc, &mut arcs, group, line)?;
    }
    push_joined(alloc, &mut arcs, group.target, &group.classes)?;
    Ok(arcs)
}
