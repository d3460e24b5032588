ghost use Rattle.std.specs.Prelude.{◌≡◌, ℕ, ◌+◌, ◌<◌, ◌≤◌, ◌^◌, All, IfErr, IfOk, IsTrue, List, MatchOption, OnOk, length, map, slice_index_or};
ghost use Rattle.tier_core.specs.declared.sym.Sym.{Sym};
ghost use Rattle.tier_core.specs.Classes.{has};
ghost use Rattle.std.specs.Ordering.{is_gt};
ghost use Rattle.tier_core.specs.Orders.{column_cmp};
ghost use Rattle.tier_core.specs.Filled.{is_filled};
ghost use Rattle.tier_core.specs.FirstColumn.{first_column};
ghost use Rattle.violation.specs.Prefixes.{kind_of_bits};
ghost use Rattle.violation.specs.Problems.{last_place, last_stage};
ghost use Rattle.answer_text.specs.Certified.{IsKeptBelow};
ghost use Rattle.cert_check.specs.Faults.{HasNode};
ghost use Rattle.cert_check.specs.Left.{AreLeft, AreTestsAt, IsAfter};
ghost use Rattle.cert_check.specs.Kept.{AreKeptPieces, IsKeptPiece, kept_classes};
ghost use Rattle.cert_check.specs.Nodes.{IsMoveFault, IsFirstInNode, IsLeastWrong, IsNotAfter, IsRightNode, IsRightPart, AreRightOn, AreWrongOn};
ghost use Rattle.cert_check.specs.Stops.{StopsBy};
ghost use Rattle.cert_check.specs.Subjects.{IsReady, AscendsAt, problem_of};

use crate::fault::Fault;
use crate::final_kind::is_final;
use crate::ground::Ground;
use crate::kept::kept_pieces;
use crate::kept_piece::{KeptPiece, MoveTarget};
use crate::left::arcs_left;
use crate::potentials::potential_at;
use crate::stop::Stop;
use crate::subject::Subject;
use answer_text::{ArcLine, Node};
use std::alloc::Global;
use symbol_class::least_column;
use tier_core::{Class, column_cmp};

/// Looks at the potential of a node.
fn check_final(subject: &Subject, stage: u32, number: u32, node: &Node) -> Result<(), Stop>
    requires ready { IsReady subject.now }
    requires stage { stage ≤ last_stage (problem_of subject.now) }
    requires is { HasNode subject.now.answer.now stage number node.now }
    ensures ok { OnOk result
        (IsRightPart (problem_of subject.now) subject.now.answer.now stage number 0) }
    ensures err { IfErr result
        (StopsBy (IsFirstInNode (problem_of subject.now) subject.now.answer.now stage number)) }
{
    if node.potential == 0 {
        return Ok(());
    }
    if !is_final(subject, &node.kind) {
        return Ok(());
    }
    Err(Stop::Found(Fault::FinalPotential {
        stage,
        node: number,
        listed: node.potential,
    }))
}

/// What is wrong with the moves of a node that are kept on the columns of a piece, if anything.
fn move_fault(
    subject: &Subject,
    stage: u32,
    number: u32,
    node: &Node,
    piece: &KeptPiece,
) -> Option<Fault>
    requires ready { IsReady subject.now }
    requires stage { stage ≤ last_stage (problem_of subject.now) }
    requires ascends { AscendsAt subject.now stage }
    requires is { HasNode subject.now.answer.now stage number node.now }
    requires filled { IsTrue (is_filled piece.now.class) }
    requires kept { (column : List Sym) → IsTrue (has piece.now.class column)
        → IsKeptBelow (problem_of subject.now) subject.now.answer.now.stages.items stage
        (kind_of_bits (problem_of subject.now) stage node.now.kind) column }
    requires piece { IsKeptPiece (problem_of subject.now) subject.now.answer.now.stages.items stage
        (kind_of_bits (problem_of subject.now) stage node.now.kind) piece.now }
    ensures { MatchOption result
        (AreRightOn (problem_of subject.now) subject.now.answer.now stage number piece.now.class)
        (IsMoveFault (problem_of subject.now) subject.now.answer.now stage number piece.now.class) }
{
    let next = match piece.target {
        MoveTarget::Node(target) => potential_at(subject, stage, target as usize),
        MoveTarget::Unlisted(missing) => {
            return Some(Fault::NotClosed {
                stage,
                node: number,
                missing,
            });
        }
    };
    let allowed = piece.cost + next;
    if node.potential > allowed {
        return Some(Fault::Potential {
            stage,
            node: number,
            listed: node.potential,
            allowed,
        });
    }
    None
}

/// Whether the least column of a class comes after that of another.
fn is_later(alloc: Global, class: &Class, other: &Class) -> bool
    ensures { result ≡ is_gt (column_cmp (first_column class.now) (first_column other.now)) }
{
    let least = least_column(alloc, class);
    column_cmp(&least, &least_column(alloc, other)).is_gt()
}

/// The number of the piece with wrong moves whose least column comes first, after one more piece.
fn next_best(
    alloc: Global,
    subject: &Subject,
    stage: u32,
    number: u32,
    node: &Node,
    pieces: &[KeptPiece],
    best: usize,
    next: usize,
) -> usize
    requires ready { IsReady subject.now }
    requires stage { stage ≤ last_stage (problem_of subject.now) }
    requires ascends { AscendsAt subject.now stage }
    requires is { HasNode subject.now.answer.now stage number node.now }
    requires kept { AreKeptPieces (problem_of subject.now) subject.now.answer.now.stages.items stage
        (kind_of_bits (problem_of subject.now) stage node.now.kind) pieces.now }
    requires within { next < length pieces.now }
    requires so_far { IsLeastWrong (problem_of subject.now) subject.now.answer.now stage number
        (kept_classes pieces.now) next best }
    ensures { IsLeastWrong (problem_of subject.now) subject.now.answer.now stage number
        (kept_classes pieces.now) (next + 1) result }
{
    match move_fault(subject, stage, number, node, &pieces[next]) {
        None => best,
        Some(_) => {
            if best == pieces.len() {
                return next;
            }
            if is_later(alloc, &pieces[best].class, &pieces[next].class) {
                next
            } else {
                best
            }
        }
    }
}

/// Looks at the moves of a node that are kept, in pieces. It stops at the least column with a wrong move.
fn check_pieces(
    alloc: Global,
    subject: &Subject,
    stage: u32,
    number: u32,
    node: &Node,
    pieces: &[KeptPiece],
) -> Result<(), Stop>
    requires ready { IsReady subject.now }
    requires stage { stage ≤ last_stage (problem_of subject.now) }
    requires ascends { AscendsAt subject.now stage }
    requires is { HasNode subject.now.answer.now stage number node.now }
    requires potential { IsRightPart (problem_of subject.now) subject.now.answer.now
        stage number 0 }
    requires kept { AreKeptPieces (problem_of subject.now) subject.now.answer.now.stages.items stage
        (kind_of_bits (problem_of subject.now) stage node.now.kind) pieces.now }
    ensures ok { OnOk result
        (IsRightPart (problem_of subject.now) subject.now.answer.now stage number 1) }
    ensures err { IfErr result
        (StopsBy (IsFirstInNode (problem_of subject.now) subject.now.answer.now stage number)) }
{
    let mut best = pieces.len();
    for next in 0..pieces.len() {
        best = next_best(alloc, subject, stage, number, node, pieces, best, next);
    }
    if best == pieces.len() {
        return Ok(());
    }
    match move_fault(subject, stage, number, node, &pieces[best]) {
        Some(fault) => Err(Stop::Found(fault)),
        None => Ok(()),
    }
}

/// Looks at the potential of a node, and then at its moves. It stops at the first fault, and otherwise
/// gives what is left of the moves after the stage.
pub(crate) fn check_node(
    alloc: Global,
    subject: &Subject,
    stage: u32,
    number: u32,
    node: &Node,
    ground: &Ground,
    before: &[Vec<ArcLine>],
) -> Result<Vec<ArcLine>, Stop>
    requires ready { IsReady subject.now }
    requires stage { stage ≤ last_stage (problem_of subject.now) }
    requires ascends { AscendsAt subject.now stage }
    requires is { HasNode subject.now.answer.now stage number node.now }
    requires place { node.now.kind.place ≤ last_place (problem_of subject.now) }
    requires tests { AreTestsAt (problem_of subject.now) stage ground.now.tests.items }
    requires before { 1 ≤ stage → IsAfter subject.now stage node.now.kind before.now }
    ensures ok { OnOk result
        (IsRightNode (problem_of subject.now) subject.now.answer.now stage number) }
    ensures left { IfOk result (λ arcs.
        AreLeft (problem_of subject.now) subject.now.answer.now.stages.items stage
        (kind_of_bits (problem_of subject.now) stage node.now.kind) arcs.items) }
    ensures err { IfErr result
        (StopsBy (IsFirstInNode (problem_of subject.now) subject.now.answer.now stage number)) }
{
    check_final(subject, stage, number, node)?;
    let pieces = kept_pieces(alloc, subject, stage, &node.kind, ground, before)?;
    check_pieces(alloc, subject, stage, number, node, &pieces)?;
    let arcs = arcs_left(alloc, subject, stage, number, node, &pieces)?;
    Ok(arcs)
}
