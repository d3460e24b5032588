ghost use Rattle.std.specs.Prelude.{◌≡◌, ◌<◌, ◌≤◌, All, AllPairs, IfOk, IsPermutation, IsSorted, length, map};
ghost use Rattle.answer_text.specs.Right.{arc_cmp};
ghost use Rattle.symbol_class.specs.Held.{width_of, ArePieces};
ghost use Rattle.arc_table.specs.MoveClasses.{move_classes};
ghost use Rattle.kind_orders.specs.AutomatonLines.{line_of};
ghost use Rattle.kind_orders.specs.JoinedLines.{AreJoinedFrom};

use crate::joined_arcs::joined_lines;
use answer_text::ArcLine;
use arc_table::TableArc;
use std::alloc::{AllocError, Global};
use weight_law::UnitWeight;

/// The arcs of moves, in which each target is a node number. `nodes` has the node number of each
/// state.
fn unsorted_lines(
    alloc: Global,
    moves: &[TableArc<UnitWeight>],
    nodes: &[u32],
) -> Result<Vec<ArcLine>, AllocError>
    requires { All (λ arc. arc.target < length nodes.now) moves.now }
    ensures { IfOk result (λ lines. lines.items ≡ map (line_of nodes.now) moves.now) }
{
    let mut lines = Vec::with_capacity(alloc, moves.len())?;
    for arc in moves {
        lines.push(ArcLine {
            target: nodes[arc.target as usize],
            class: arc.class,
        })?;
    }
    Ok(lines)
}

/// The arcs of moves, in which each target is a node number, sorted by target.
fn sorted_lines(
    alloc: Global,
    moves: &[TableArc<UnitWeight>],
    nodes: &[u32],
) -> Result<Vec<ArcLine>, AllocError>
    requires { All (λ arc. arc.target < length nodes.now) moves.now }
    ensures same { IfOk result
        (λ lines. IsPermutation (map (line_of nodes.now) moves.now) lines.items) }
    ensures sorted { IfOk result (λ lines. AllPairs (λ a b. a.target ≤ b.target) lines.items) }
{
    let mut lines = unsorted_lines(alloc, moves, nodes)?;
    lines.sort_unstable_by(|a, b| a.target.cmp(&b.target));
    Ok(lines)
}

/// The arcs of a state that has these moves, in which each target is a node number. Those to one
/// target are joined, and they are sorted by target and then by class.
pub(crate) fn arc_lines(
    alloc: Global,
    moves: &[TableArc<UnitWeight>],
    nodes: &[u32],
) -> Result<Vec<ArcLine>, AllocError>
    requires targets { All (λ arc. arc.target < length nodes.now) moves.now }
    requires pieces { ArePieces (width_of (move_classes moves.now)) (move_classes moves.now) }
    ensures joined { IfOk result
        (λ arcs. AreJoinedFrom (map (line_of nodes.now) moves.now) arcs.items) }
    ensures sorted { IfOk result (λ arcs. IsSorted arc_cmp arcs.items) }
{
    let lines = sorted_lines(alloc, moves, nodes)?;
    let mut arcs = joined_lines(alloc, &lines)?;
    arcs.shrink_to_fit();
    Ok(arcs)
}
