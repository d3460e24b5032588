ghost use Rattle.std.specs.Prelude.{◌≡◌, ◌<◌, ◌≤◌, length, slice_index_or};
ghost use Rattle.violation.specs.Problems.{last_stage};
ghost use Rattle.answer_text.specs.declared.stage.Node.{Node};
ghost use Rattle.cert_check.specs.Subjects.{IsReady, stage_nodes, problem_of};

use crate::subject::Subject;

/// The potential of a node of a stage, by its number.
pub(crate) fn potential_at(subject: &Subject, stage: u32, number: usize) -> u32
    requires ready { IsReady subject.now }
    requires stage { stage ≤ last_stage (problem_of subject.now) }
    requires within { number < length (stage_nodes subject.now stage) }
    ensures value { (node : Node)
        → result ≡ (slice_index_or (stage_nodes subject.now stage) number node).potential }
    ensures few { result ≤ 1000000000 }
{
    let nodes = subject.answer.stages[stage as usize].nodes.as_slice();
    nodes[number].potential
}
