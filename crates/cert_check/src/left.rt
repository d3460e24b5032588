ghost use Rattle.std.specs.Prelude.{◌≡◌, ◌==◌, ◌||◌, ◌+◌, ◌<◌, ◌≤◌, IfOk, OnOk, length, slice_index_or};
ghost use Rattle.violation.specs.Prefixes.{kind_of_bits};
ghost use Rattle.violation.specs.Problems.{last_stage};
ghost use Rattle.answer_text.specs.declared.stage.Node.{Node};
ghost use Rattle.cert_check.specs.Faults.{HasNode};
ghost use Rattle.cert_check.specs.Kept.{AreKeptPieces, IsKeptPiece};
ghost use Rattle.cert_check.specs.Left.{AddsLeft, AreLeft, IsListedPiece};
ghost use Rattle.cert_check.specs.Nodes.{IsRightPart};
ghost use Rattle.cert_check.specs.Subjects.{IsReady, AscendsAt, problem_of, stage_nodes};

use crate::kept_piece::{KeptPiece, MoveTarget};
use crate::potentials::potential_at;
use crate::subject::Subject;
use answer_text::{ArcLine, Node};
use std::alloc::{AllocError, Global};

/// Whether moves from a node to another of its stage, which cost so much, are kept after the stage:
/// those that are tight, and after stage 0 all.
fn are_tight(subject: &Subject, stage: u32, node: &Node, cost: u32, target: u32) -> bool
    requires ready { IsReady subject.now }
    requires stage { stage ≤ last_stage (problem_of subject.now) }
    requires within { target < length (stage_nodes subject.now stage) }
    requires few { cost ≤ 1 }
    ensures { (other : Node) → result
        ≡ (stage == 0 || node.now.potential
        == (cost + (slice_index_or (stage_nodes subject.now stage) target other).potential)) }
{
    stage == 0 || node.potential == cost + potential_at(subject, stage, target as usize)
}

/// Puts the arc of a piece of kept moves at the end of a list, if they are kept after the stage, too.
fn push_left(
    arcs: &mut Vec<ArcLine>,
    subject: &Subject,
    stage: u32,
    number: u32,
    node: &Node,
    piece: &KeptPiece,
) -> Result<(), AllocError>
    requires ready { IsReady subject.now }
    requires stage { stage ≤ last_stage (problem_of subject.now) }
    requires ascends { AscendsAt subject.now stage }
    requires is { HasNode subject.now.answer.now stage number node.now }
    requires listed { IsListedPiece subject.now stage piece.now }
    requires piece { IsKeptPiece (problem_of subject.now) subject.now.answer.now.stages.items stage
        (kind_of_bits (problem_of subject.now) stage node.now.kind) piece.now }
    ensures { OnOk result
        (AddsLeft (problem_of subject.now) subject.now.answer.now.stages.items stage
        (kind_of_bits (problem_of subject.now) stage node.now.kind) piece.now.class arcs.old.items
        arcs.new.items) }
{
    let MoveTarget::Node(target) = piece.target else {
        unreachable!();
    };
    if !are_tight(subject, stage, node, piece.cost, target) {
        return Ok(());
    }
    arcs.push(ArcLine {
        target,
        class: piece.class,
    })?;
    Ok(())
}

/// What is left of the moves of a node after its stage, of which nothing is wrong there.
pub(crate) fn arcs_left(
    alloc: Global,
    subject: &Subject,
    stage: u32,
    number: u32,
    node: &Node,
    pieces: &[KeptPiece],
) -> Result<Vec<ArcLine>, AllocError>
    requires ready { IsReady subject.now }
    requires stage { stage ≤ last_stage (problem_of subject.now) }
    requires ascends { AscendsAt subject.now stage }
    requires is { HasNode subject.now.answer.now stage number node.now }
    requires right { IsRightPart (problem_of subject.now) subject.now.answer.now stage number 1 }
    requires kept { AreKeptPieces (problem_of subject.now) subject.now.answer.now.stages.items stage
        (kind_of_bits (problem_of subject.now) stage node.now.kind) pieces.now }
    ensures { IfOk result
        (λ arcs.
        AreLeft (problem_of subject.now) subject.now.answer.now.stages.items stage
        (kind_of_bits (problem_of subject.now) stage node.now.kind) arcs.items) }
{
    let mut arcs = Vec::new(alloc);
    for piece in pieces {
        push_left(&mut arcs, subject, stage, number, node, piece)?;
    }
    Ok(arcs)
}
