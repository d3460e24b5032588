ghost use Rattle.std.specs.Prelude.{ℕ, ◌≤◌, IfErr, IfOk, OnOk, length};
ghost use Rattle.violation.specs.Problems.{last_stage};
ghost use Rattle.cert_check.specs.FirstFaults.{IsFirstFault};
ghost use Rattle.cert_check.specs.Left.{AreLeftAt};
ghost use Rattle.cert_check.specs.Nodes.{IsFaultlessStage};
ghost use Rattle.cert_check.specs.Parts.{HasRightHead};
ghost use Rattle.cert_check.specs.Stops.{StopsBy};
ghost use Rattle.cert_check.specs.Subjects.{IsReady, problem_of};

use crate::stage_check::check_stage;
use crate::stop::Stop;
use crate::subject::Subject;
use answer_text::ArcLine;
use std::alloc::Global;

/// Looks at each stage, from stage 0. It stops at the first fault, and otherwise gives what is left of the
/// moves of each node of the last stage.
pub(crate) fn check_stages(alloc: Global, subject: &Subject) -> Result<Vec<Vec<ArcLine>>, Stop>
    requires ready { IsReady subject.now }
    requires head { HasRightHead (problem_of subject.now) subject.now.answer.now }
    ensures ok { OnOk result
        ((r : ℕ) → r ≤ last_stage (problem_of subject.now)
        → IsFaultlessStage (problem_of subject.now) subject.now.answer.now r) }
    ensures left { IfOk result (λ left.
        AreLeftAt subject.now (last_stage (problem_of subject.now)) left.items) }
    ensures err { IfErr result
        (StopsBy (IsFirstFault (problem_of subject.now) subject.now.answer.now)) }
{
    let mut left = Vec::new(alloc);
    for stage in 0..subject.answer.stages.len() {
        left = check_stage(alloc, subject, stage as u32, &left)?;
    }
    Ok(left)
}
