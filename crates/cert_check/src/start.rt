ghost use Rattle.std.specs.Prelude.{◌≡◌, ◌<◌, ◌≤◌, ◌↔◌, [], IfErr, IsTrue, OnOk, Some, length, slice_get};
ghost use Rattle.tier_core.specs.KindShapes.{FitsShape};
ghost use Rattle.violation.specs.Prefixes.{kind_of, kind_of_bits};
ghost use Rattle.violation.specs.Problems.{last_stage};
ghost use Rattle.cert_check.specs.Parts.{IsFirstInStage};
ghost use Rattle.cert_check.specs.Stops.{StopsBy};
ghost use Rattle.cert_check.specs.Subjects.{IsReady, AreFirstNodesInOrder, problem_of, stage_nodes, stage_kinds};

use crate::fault::Fault;
use crate::stop::Stop;
use crate::subject::Subject;
use tier_core::{Kind, kind_cmp};

/// Whether a kind is that of the empty prefix.
fn is_start(subject: &Subject, stage: u32, kind: &Kind) -> bool
    requires ready { IsReady subject.now }
    requires stage { stage ≤ last_stage (problem_of subject.now) }
    requires fits { FitsShape subject.now.shape.now stage kind.now }
    ensures { IsTrue result
        ↔
        (kind_of_bits (problem_of subject.now) stage kind.now
        ≡ kind_of (problem_of subject.now) stage []) }
{
    let start = Kind {
        place: 0,
        opened: 0,
        unmet: 0,
        met: 0,
    };
    kind_cmp(kind, &start, subject.shape, stage).is_eq()
}

/// Looks at node 0 of a stage whose nodes are in order. It is the kind of the empty prefix.
pub(crate) fn check_start(subject: &Subject, stage: u32) -> Result<(), Stop>
    requires ready { IsReady subject.now }
    requires stage { stage ≤ last_stage (problem_of subject.now) }
    requires order { AreFirstNodesInOrder subject.now stage
        (length (stage_nodes subject.now stage)) }
    ensures ok { OnOk result
        (slice_get (stage_kinds subject.now stage) 0
        ≡ Some (kind_of (problem_of subject.now) stage [])) }
    ensures err { IfErr result
        (StopsBy (IsFirstInStage (problem_of subject.now) subject.now.answer.now stage)) }
{
    let nodes = subject.answer.stages[stage as usize].nodes.as_slice();
    if nodes.is_empty() {
        return Err(Stop::Found(Fault::StartMissing { stage }));
    }
    if !is_start(subject, stage, &nodes[0].kind) {
        return Err(Stop::Found(Fault::StartMissing { stage }));
    }
    Ok(())
}
