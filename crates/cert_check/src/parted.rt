ghost use Rattle.std.specs.Prelude.{◌≡◌, ◌-◌, ◌<◌, ◌≤◌, ℕ, IfOk, IsTrue, All, length};
ghost use Rattle.tier_core.specs.Classes.{sets_of};
ghost use Rattle.tier_core.specs.KindShapes.{FitsShape};
ghost use Rattle.violation.specs.Moves.{cut_kind};
ghost use Rattle.violation.specs.Prefixes.{kind_of_bits};
ghost use Rattle.violation.specs.Problems.{last_place, last_stage};
ghost use Rattle.cert_check.specs.Left.{AreFirstParts, AreLeft, AreTestsAt, IsAfter};
ghost use Rattle.cert_check.specs.Subjects.{IsReady, problem_of};

use crate::cut::cut_to;
use crate::find::find_kind;
use crate::fitting::fitting;
use crate::subject::Subject;
use crate::uniform::parted_by_tests;
use answer_text::ArcLine;
use std::alloc::Global;
use tier_core::{Class, Kind, NoMemory};

/// The columns of a kind of stage 0, in pieces whose moves are alike. Fails only if memory runs out.
pub(crate) fn first_parts(
    alloc: Global,
    subject: &Subject,
    kind: &Kind,
    tests: &[Class],
) -> Result<Vec<Class>, NoMemory>
    requires ready { IsReady subject.now }
    requires place { kind.now.place ≤ last_place (problem_of subject.now) }
    requires tests { AreTestsAt (problem_of subject.now) 0 tests.now }
    ensures { IfOk result (λ parts.
        AreFirstParts (problem_of subject.now)
        (kind_of_bits (problem_of subject.now) 0 kind.now) parts.items) }
{
    let pieces = fitting(alloc, subject, kind)?;
    let width = subject.grammar.tiers.kinds.as_slice().len() as u32;
    parted_by_tests(alloc, width, pieces, tests)
}

/// What is left of the moves of a kind's cut after the stage before.
pub(crate) fn left_before<'a>(
    subject: &Subject,
    stage: u32,
    kind: &Kind,
    before: &'a [Vec<ArcLine>],
) -> &'a [ArcLine]
    requires ready { IsReady subject.now }
    requires some { 1 ≤ stage }
    requires stage { stage ≤ last_stage (problem_of subject.now) }
    requires fits { FitsShape subject.now.shape.now stage kind.now }
    requires before { IsAfter subject.now stage kind.now before.now }
    ensures { AreLeft (problem_of subject.now) subject.now.answer.now.stages.items (stage - 1)
        (cut_kind (problem_of subject.now) (stage - 1)
        (kind_of_bits (problem_of subject.now) stage kind.now)) result.now }
{
    let earlier = stage as usize - 1;
    let cut = cut_to(kind, subject.shape.phases[earlier]);
    let Some(number) = find_kind(subject, stage - 1, &cut) else {
        unreachable!();
    };
    before[number].as_slice()
}
