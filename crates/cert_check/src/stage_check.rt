ghost use Rattle.std.specs.Prelude.{◌≡◌, ℕ, ◌-◌, ◌<◌, ◌≤◌, [], IfErr, IfOk, OnOk, Some, length, slice_get};
ghost use Rattle.violation.specs.Prefixes.{kind_of};
ghost use Rattle.violation.specs.Problems.{last_stage};
ghost use Rattle.answer_text.specs.Certified.{start_potential};
ghost use Rattle.cert_check.specs.Left.{AreLeftAt};
ghost use Rattle.cert_check.specs.Nodes.{IsRightNode, IsFaultlessStage};
ghost use Rattle.cert_check.specs.Parts.{IsFirstInStage};
ghost use Rattle.cert_check.specs.Stops.{StopsBy};
ghost use Rattle.cert_check.specs.Subjects.{IsReady, AreFirstNodesInOrder, AscendsAt, stage_kinds, stage_nodes, problem_of};

use crate::fault::Fault;
use crate::ground::ground_of;
use crate::node_check::check_node;
use crate::order::check_order;
use crate::potentials::potential_at;
use crate::start::check_start;
use crate::stop::Stop;
use crate::subject::Subject;
use answer_text::ArcLine;
use std::alloc::Global;

/// Looks at each node of a stage whose nodes are in order. It stops at the first fault, and otherwise
/// gives what is left of the moves of each node after the stage.
fn check_nodes(
    alloc: Global,
    subject: &Subject,
    stage: u32,
    before: &[Vec<ArcLine>],
) -> Result<Vec<Vec<ArcLine>>, Stop>
    requires ready { IsReady subject.now }
    requires stage { stage ≤ last_stage (problem_of subject.now) }
    requires before { 1 ≤ stage → AscendsAt subject.now (stage - 1)
        × AreLeftAt subject.now (stage - 1) before.now }
    requires order { AreFirstNodesInOrder subject.now stage
        (length (stage_nodes subject.now stage)) }
    requires start { slice_get (stage_kinds subject.now stage) 0
        ≡ Some (kind_of (problem_of subject.now) stage []) }
    ensures ok { OnOk result
        ((n : ℕ) → n < length (stage_nodes subject.now stage)
        → IsRightNode (problem_of subject.now) subject.now.answer.now stage n) }
    ensures left { IfOk result (λ left. AreLeftAt subject.now stage left.items) }
    ensures err { IfErr result
        (StopsBy (IsFirstInStage (problem_of subject.now) subject.now.answer.now stage)) }
{
    let nodes = subject.answer.stages[stage as usize].nodes.as_slice();
    let ground = ground_of(alloc, subject, stage)?;
    let mut left = Vec::new(alloc);
    for number in 0..nodes.len() {
        let node = &nodes[number];
        left.push(check_node(alloc, subject, stage, number as u32, node, &ground, before)?)?;
    }
    Ok(left)
}

/// The potential that the start of a stage has: 0 at stage 0, and otherwise the count of its
/// constraint.
fn start_count(subject: &Subject, stage: u32) -> u32
    requires ready { IsReady subject.now }
    requires stage { stage ≤ last_stage (problem_of subject.now) }
    ensures { result ≡ start_potential subject.now.answer.now.counts.items stage }
{
    if stage == 0 {
        return 0;
    }
    subject.answer.counts[stage as usize - 1]
}

/// Looks at the potential of the start of a stage, of which all else is right.
fn check_start_potential(subject: &Subject, stage: u32) -> Result<(), Stop>
    requires ready { IsReady subject.now }
    requires stage { stage ≤ last_stage (problem_of subject.now) }
    requires order { AreFirstNodesInOrder subject.now stage
        (length (stage_nodes subject.now stage)) }
    requires start { slice_get (stage_kinds subject.now stage) 0
        ≡ Some (kind_of (problem_of subject.now) stage []) }
    requires nodes { (n : ℕ) → n < length (stage_nodes subject.now stage)
        → IsRightNode (problem_of subject.now) subject.now.answer.now stage n }
    ensures ok { OnOk result
        (IsFaultlessStage (problem_of subject.now) subject.now.answer.now stage) }
    ensures err { IfErr result
        (StopsBy (IsFirstInStage (problem_of subject.now) subject.now.answer.now stage)) }
{
    let listed = potential_at(subject, stage, 0);
    let count = start_count(subject, stage);
    if listed != count {
        return Err(Stop::Found(Fault::StartPotential {
            stage,
            listed,
            count,
        }));
    }
    Ok(())
}

/// Looks at a stage. Those before it are right, and it is told what is left of their moves. It stops at
/// the first fault, and otherwise gives what is left of the moves of each node after it.
pub(crate) fn check_stage(
    alloc: Global,
    subject: &Subject,
    stage: u32,
    before: &[Vec<ArcLine>],
) -> Result<Vec<Vec<ArcLine>>, Stop>
    requires ready { IsReady subject.now }
    requires stage { stage ≤ last_stage (problem_of subject.now) }
    requires before { 1 ≤ stage → AscendsAt subject.now (stage - 1)
        × AreLeftAt subject.now (stage - 1) before.now }
    ensures right { OnOk result
        (IsFaultlessStage (problem_of subject.now) subject.now.answer.now stage) }
    ensures ascends { OnOk result (AscendsAt subject.now stage) }
    ensures left { IfOk result (λ left. AreLeftAt subject.now stage left.items) }
    ensures err { IfErr result
        (StopsBy (IsFirstInStage (problem_of subject.now) subject.now.answer.now stage)) }
{
    check_order(subject, stage)?;
    check_start(subject, stage)?;
    let left = check_nodes(alloc, subject, stage, before)?;
    check_start_potential(subject, stage)?;
    Ok(left)
}
