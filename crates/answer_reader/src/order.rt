ghost use Rattle.std.specs.Prelude.{◌≡◌, map, All};
ghost use Rattle.answer_text.specs.Right.{arc_cmp};
ghost use Rattle.answer_reader.specs.LineWords.{bare_state};
ghost use Rattle.answer_reader.specs.Orders.{arc_less, follows, node_less, state_less};
ghost use Rattle.answer_text.specs.Values.{arc_value, node_value, state_value};
ghost use Rattle.answer_reader.specs.Within.{IsNodeWithin};

use answer_text::{ArcLine, Node, StateLine};
use std::cmp::Ordering;
use symbol_class::class_cmp;
use tier_core::{Shape, kind_cmp};

/// Whether a node comes strictly after the last of those before it in its stage.
pub(crate) fn node_follows(
    shape: &Shape,
    columns: u32,
    stage: u32,
    nodes: &[Node],
    node: &Node,
) -> bool
    requires within { All (IsNodeWithin shape.now columns stage) nodes.now }
    requires node { IsNodeWithin shape.now columns stage node.now }
    ensures { result ≡ follows node_less (map (node_value shape.now stage) nodes.now)
        (node_value shape.now stage node.now) }
{
    match nodes.last() {
        None => true,
        Some(last) => kind_cmp(&last.kind, &node.kind, shape, stage) == Ordering::Less,
    }
}

/// Compares arcs by target, then by class.
fn arc_cmp(a: &ArcLine, b: &ArcLine) -> Ordering
    ensures { result ≡ arc_cmp a.now b.now }
{
    a.target.cmp(&b.target).then(class_cmp(&a.class, &b.class))
}

/// Whether an arc comes strictly after the last of those before it.
pub(crate) fn arc_follows(arcs: &[ArcLine], arc: &ArcLine) -> bool
    ensures { result ≡ follows arc_less (map arc_value arcs.now) (arc_value arc.now) }
{
    match arcs.last() {
        None => true,
        Some(last) => arc_cmp(last, arc) == Ordering::Less,
    }
}

/// Whether a state comes strictly after the last of those before it.
pub(crate) fn state_follows(states: &[StateLine], node: u32, accepting: bool) -> bool
    ensures { result ≡ follows state_less (map state_value states.now)
        (bare_state (node, accepting)) }
{
    match states.last() {
        None => true,
        Some(last) => last.node < node,
    }
}
