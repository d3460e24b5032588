ghost use Rattle.std.specs.Prelude.{◌≡◌, ◌-◌, ◌≤◌, [], ◌∷◌, All, IfOk, IsTrue, OnOk, length};
ghost use Rattle.tier_core.specs.Classes.{sets_of, has};
ghost use Rattle.tier_core.specs.KindShapes.{FitsShape};
ghost use Rattle.tier_core.specs.Filled.{is_filled};
ghost use Rattle.symbol_class.specs.Held.{ArePieces, once_if, times_held};
ghost use Rattle.violation.specs.Moves.{cut_kind, next_kind};
ghost use Rattle.violation.specs.Prefixes.{kind_of_bits};
ghost use Rattle.violation.specs.Problems.{last_place, last_stage};
ghost use Rattle.cert_check.specs.Kept.{AddsPieces, AreKeptPieces, IsTargetOf};
ghost use Rattle.cert_check.specs.Left.{AreLeft, AreTestsAt, IsAfter, IsLeadingArc, IsMovingAlike};
ghost use Rattle.cert_check.specs.Opens.{IsSource};
ghost use Rattle.cert_check.specs.Subjects.{IsReady, AscendsAt, problem_of};

use crate::costs::{cost, open_at};
use crate::find::find_near;
use crate::ground::Ground;
use crate::kept_piece::{KeptPiece, MoveTarget};
use crate::moves::next_kind;
use crate::parted::{first_parts, left_before};
use crate::source::Source;
use crate::subject::Subject;
use crate::uniform::{is_uniform, parted_by_tests};
use answer_text::ArcLine;
use std::alloc::{AllocError, Global};
use symbol_class::least_column;
use tier_core::{Class, Kind, NoMemory, Sym};

/// Where the move of a kind of a stage leads by a column. The hint is a number at which the node may
/// stand.
fn target_of(
    subject: &Subject,
    stage: u32,
    source: &Source,
    hint: usize,
    column: &[Sym],
) -> MoveTarget
    requires ready { IsReady subject.now }
    requires stage { stage ≤ last_stage (problem_of subject.now) }
    requires ascends { AscendsAt subject.now stage }
    requires source { IsSource subject.now stage source.now }
    requires width { length column.now ≡ (problem_of subject.now).tiers.width }
    ensures { IsTargetOf (problem_of subject.now) subject.now.answer.now.stages.items stage result
        (next_kind (problem_of subject.now) stage
        (kind_of_bits (problem_of subject.now) stage source.now.kind) column.now) }
{
    let target = next_kind(subject, stage, &source.kind, column);
    match find_near(subject, stage, &target, hint) {
        Some(number) => MoveTarget::Node(number as u32),
        None => MoveTarget::Unlisted(target),
    }
}

/// Puts columns whose moves are alike at the end of a list, with their target and their cost.
fn push_kept(
    alloc: Global,
    kept: &mut Vec<KeptPiece>,
    subject: &Subject,
    stage: u32,
    source: &Source,
    hint: usize,
    class: &Class,
) -> Result<(), AllocError>
    requires ready { IsReady subject.now }
    requires stage { stage ≤ last_stage (problem_of subject.now) }
    requires ascends { AscendsAt subject.now stage }
    requires source { IsSource subject.now stage source.now }
    requires width { length (sets_of class.now) ≡ (problem_of subject.now).tiers.width }
    requires filled { IsTrue (is_filled class.now) }
    requires alike { IsMovingAlike (problem_of subject.now) stage
        (kind_of_bits (problem_of subject.now) stage source.now.kind) class.now }
    ensures { OnOk result
        (AddsPieces (problem_of subject.now) subject.now.answer.now.stages.items stage
        (kind_of_bits (problem_of subject.now) stage source.now.kind) kept.old.items
        kept.new.items (λ column. once_if (has class.now column))) }
{
    let least = least_column(alloc, class);
    let column = least.syms();
    let target = target_of(subject, stage, source, hint, column);
    let cost = cost(subject, stage, &source.kind, source.mask, column);
    kept.push(KeptPiece {
        class: *class,
        target,
        cost,
    })?;
    Ok(())
}

/// Puts pieces, in each of which moves are alike, at the end of a list.
fn push_each(
    alloc: Global,
    kept: &mut Vec<KeptPiece>,
    subject: &Subject,
    stage: u32,
    source: &Source,
    hint: usize,
    pieces: &[Class],
) -> Result<(), AllocError>
    requires ready { IsReady subject.now }
    requires stage { stage ≤ last_stage (problem_of subject.now) }
    requires ascends { AscendsAt subject.now stage }
    requires source { IsSource subject.now stage source.now }
    requires pieces { ArePieces (problem_of subject.now).tiers.width pieces.now }
    requires alike { All (IsMovingAlike (problem_of subject.now) stage
        (kind_of_bits (problem_of subject.now) stage source.now.kind)) pieces.now }
    ensures { OnOk result
        (AddsPieces (problem_of subject.now) subject.now.answer.now.stages.items stage
        (kind_of_bits (problem_of subject.now) stage source.now.kind) kept.old.items
        kept.new.items (times_held pieces.now)) }
{
    for class in pieces {
        push_kept(alloc, kept, subject, stage, source, hint, class)?;
    }
    Ok(())
}

/// The pieces of a kind of stage 0.
fn first_kept(
    alloc: Global,
    subject: &Subject,
    source: &Source,
    tests: &[Class],
) -> Result<Vec<KeptPiece>, NoMemory>
    requires ready { IsReady subject.now }
    requires ascends { AscendsAt subject.now 0 }
    requires source { IsSource subject.now 0 source.now }
    requires tests { AreTestsAt (problem_of subject.now) 0 tests.now }
    ensures { IfOk result
        (λ pieces.
        AreKeptPieces (problem_of subject.now) subject.now.answer.now.stages.items 0
        (kind_of_bits (problem_of subject.now) 0 source.now.kind) pieces.items) }
{
    let parts = first_parts(alloc, subject, &source.kind, tests)?;
    let mut kept = Vec::new(alloc);
    push_each(alloc, &mut kept, subject, 0, source, 0, &parts)?;
    Ok(kept)
}

/// A list of one class.
fn only(alloc: Global, class: Class) -> Result<Vec<Class>, AllocError>
    ensures { IfOk result (λ classes. classes.items ≡ class ∷ []) }
{
    let mut classes = Vec::new(alloc);
    classes.push(class)?;
    Ok(classes)
}

/// Puts the parts of an arc of the stage before, which the tests of a stage tell apart, at the end of a
/// list.
fn push_parts(
    alloc: Global,
    kept: &mut Vec<KeptPiece>,
    subject: &Subject,
    stage: u32,
    source: &Source,
    ground: &Ground,
    arc: &ArcLine,
) -> Result<(), NoMemory>
    requires ready { IsReady subject.now }
    requires some { 1 ≤ stage }
    requires stage { stage ≤ last_stage (problem_of subject.now) }
    requires ascends { AscendsAt subject.now stage }
    requires source { IsSource subject.now stage source.now }
    requires tests { AreTestsAt (problem_of subject.now) stage ground.now.tests.items }
    requires width { length (sets_of arc.now.class) ≡ (problem_of subject.now).tiers.width }
    requires filled { IsTrue (is_filled arc.now.class) }
    requires leads { IsLeadingArc (problem_of subject.now) subject.now.answer.now.stages.items
        (stage - 1) (cut_kind (problem_of subject.now) (stage - 1)
        (kind_of_bits (problem_of subject.now) stage source.now.kind)) arc.now }
    ensures { OnOk result
        (AddsPieces (problem_of subject.now) subject.now.answer.now.stages.items stage
        (kind_of_bits (problem_of subject.now) stage source.now.kind) kept.old.items
        kept.new.items (λ column. once_if (has arc.now.class column))) }
{
    let hint = ground.hint(arc.target);
    if is_uniform(&arc.class, &ground.tests) {
        push_kept(alloc, kept, subject, stage, source, hint, &arc.class)?;
        return Ok(());
    }
    let width = subject.grammar.tiers.kinds.as_slice().len() as u32;
    let parts = parted_by_tests(alloc, width, only(alloc, arc.class)?, &ground.tests)?;
    push_each(alloc, kept, subject, stage, source, hint, &parts)?;
    Ok(())
}

/// The pieces of a kind of a stage that is not the first: the parts of what is left of the moves of its
/// cut.
fn later_kept(
    alloc: Global,
    subject: &Subject,
    stage: u32,
    source: &Source,
    ground: &Ground,
    before: &[ArcLine],
) -> Result<Vec<KeptPiece>, NoMemory>
    requires ready { IsReady subject.now }
    requires some { 1 ≤ stage }
    requires stage { stage ≤ last_stage (problem_of subject.now) }
    requires ascends { AscendsAt subject.now stage }
    requires source { IsSource subject.now stage source.now }
    requires tests { AreTestsAt (problem_of subject.now) stage ground.now.tests.items }
    requires before { AreLeft (problem_of subject.now) subject.now.answer.now.stages.items
        (stage - 1) (cut_kind (problem_of subject.now) (stage - 1)
        (kind_of_bits (problem_of subject.now) stage source.now.kind)) before.now }
    ensures { IfOk result
        (λ pieces.
        AreKeptPieces (problem_of subject.now) subject.now.answer.now.stages.items stage
        (kind_of_bits (problem_of subject.now) stage source.now.kind) pieces.items) }
{
    let mut kept = Vec::new(alloc);
    for arc in before {
        push_parts(alloc, &mut kept, subject, stage, source, ground, arc)?;
    }
    Ok(kept)
}

/// The columns on which the moves of a kind of a stage are kept there, in pieces that lead to one kind and
/// cost the same. What is left of the moves of the stage before is parted by the last constraint alone.
/// Fails only if memory runs out.
pub(crate) fn kept_pieces(
    alloc: Global,
    subject: &Subject,
    stage: u32,
    kind: &Kind,
    ground: &Ground,
    before: &[Vec<ArcLine>],
) -> Result<Vec<KeptPiece>, NoMemory>
    requires ready { IsReady subject.now }
    requires stage { stage ≤ last_stage (problem_of subject.now) }
    requires ascends { AscendsAt subject.now stage }
    requires fits { FitsShape subject.now.shape.now stage kind.now }
    requires place { kind.now.place ≤ last_place (problem_of subject.now) }
    requires tests { AreTestsAt (problem_of subject.now) stage ground.now.tests.items }
    requires before { 1 ≤ stage → IsAfter subject.now stage kind.now before.now }
    ensures { IfOk result
        (λ pieces.
        AreKeptPieces (problem_of subject.now) subject.now.answer.now.stages.items stage
        (kind_of_bits (problem_of subject.now) stage kind.now) pieces.items) }
{
    let source = Source {
        kind: *kind,
        mask: open_at(subject, kind),
    };
    if stage == 0 {
        return first_kept(alloc, subject, &source, &ground.tests);
    }
    let arcs = left_before(subject, stage, kind, before);
    later_kept(alloc, subject, stage, &source, ground, arcs)
}
