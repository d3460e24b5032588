ghost use Rattle.std.specs.Prelude.{◌≡◌, ◌≤◌, ◌↔◌, All, IfSome, IsTrue, MatchOption, Contains, Some, length, slice_get};
ghost use Rattle.std.specs.List.Sorted.{IsStrictlySortedBy};
ghost use Rattle.tier_core.specs.Kinds.{kind_order};
ghost use Rattle.tier_core.specs.KindShapes.{FitsShape, kind_in};
ghost use Rattle.violation.specs.Prefixes.{kind_of_bits};
ghost use Rattle.violation.specs.Problems.{last_stage};
ghost use Rattle.cert_check.specs.Searches.{told_in};
ghost use Rattle.cert_check.specs.Subjects.{IsReady, AscendsAt, problem_of, stage_kinds};

use crate::subject::Subject;
use answer_text::Node;
use std::cmp::Ordering;
use tier_core::{Kind, Shape, kind_cmp};

/// The number of the node of a stage that tells the same kind as a key.
fn find(shape: &Shape, stage: u32, nodes: &[Node], key: &Kind) -> Option<usize>
    requires fits { All (λ node. FitsShape shape.now stage node.kind) nodes.now }
    requires key { FitsShape shape.now stage key.now }
    requires ascending { IsStrictlySortedBy kind_order (told_in shape.now stage nodes.now) }
    requires few { length nodes.now ≤ 65536 }
    ensures { MatchOption result
        (Contains (told_in shape.now stage nodes.now) (kind_in shape.now stage key.now) → ⊥)
        (λ n.
        slice_get (told_in shape.now stage nodes.now) n
        ≡ Some (kind_in shape.now stage key.now)) }
{
    let mut low = 0;
    let mut high = nodes.len();
    while low < high {
        let middle = low + (high - low) / 2;
        match kind_cmp(&nodes[middle].kind, key, shape, stage) {
            Ordering::Less => low = middle + 1,
            Ordering::Greater => high = middle,
            Ordering::Equal => return Some(middle),
        }
    }
    None
}

/// The number of the node of a stage that tells a kind.
pub(crate) fn find_kind(subject: &Subject, stage: u32, kind: &Kind) -> Option<usize>
    requires ready { IsReady subject.now }
    requires stage { stage ≤ last_stage (problem_of subject.now) }
    requires ascends { AscendsAt subject.now stage }
    requires fits { FitsShape subject.now.shape.now stage kind.now }
    ensures { MatchOption result
        (Contains (stage_kinds subject.now stage)
        (kind_of_bits (problem_of subject.now) stage kind.now) → ⊥)
        (λ n.
        slice_get (stage_kinds subject.now stage) n
        ≡ Some (kind_of_bits (problem_of subject.now) stage kind.now)) }
{
    let nodes = subject.answer.stages[stage as usize].nodes.as_slice();
    find(subject.shape, stage, nodes, kind)
}

/// Whether a node of a stage tells a kind.
pub(crate) fn has_kind(subject: &Subject, stage: u32, kind: &Kind) -> bool
    requires ready { IsReady subject.now }
    requires stage { stage ≤ last_stage (problem_of subject.now) }
    requires ascends { AscendsAt subject.now stage }
    requires fits { FitsShape subject.now.shape.now stage kind.now }
    ensures { IsTrue result
        ↔ Contains (stage_kinds subject.now stage)
        (kind_of_bits (problem_of subject.now) stage kind.now) }
{
    match find_kind(subject, stage, kind) {
        Some(_) => true,
        None => false,
    }
}

/// The number of the node of a stage that tells the same kind as a key, if it is this number or the next.
fn near(shape: &Shape, stage: u32, nodes: &[Node], key: &Kind, hint: usize) -> Option<usize>
    requires fits { All (λ node. FitsShape shape.now stage node.kind) nodes.now }
    requires key { FitsShape shape.now stage key.now }
    requires ascending { IsStrictlySortedBy kind_order (told_in shape.now stage nodes.now) }
    ensures { IfSome result
        (λ n.
        slice_get (told_in shape.now stage nodes.now) n
        ≡ Some (kind_in shape.now stage key.now)) }
{
    let end = nodes.len().min(hint.saturating_add(2));
    for number in hint..end {
        match kind_cmp(&nodes[number].kind, key, shape, stage) {
            Ordering::Less => {}
            Ordering::Greater => {}
            Ordering::Equal => return Some(number),
        }
    }
    None
}

/// The number of the node of a stage that tells a kind. A number where it may be is looked at first, and
/// the next one.
pub(crate) fn find_near(subject: &Subject, stage: u32, kind: &Kind, hint: usize) -> Option<usize>
    requires ready { IsReady subject.now }
    requires stage { stage ≤ last_stage (problem_of subject.now) }
    requires ascends { AscendsAt subject.now stage }
    requires fits { FitsShape subject.now.shape.now stage kind.now }
    ensures { MatchOption result
        (Contains (stage_kinds subject.now stage)
        (kind_of_bits (problem_of subject.now) stage kind.now) → ⊥)
        (λ n.
        slice_get (stage_kinds subject.now stage) n
        ≡ Some (kind_of_bits (problem_of subject.now) stage kind.now)) }
{
    let nodes = subject.answer.stages[stage as usize].nodes.as_slice();
    match near(subject.shape, stage, nodes, kind, hint) {
        Some(number) => Some(number),
        None => find_kind(subject, stage, kind),
    }
}
