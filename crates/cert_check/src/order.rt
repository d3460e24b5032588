ghost use Rattle.std.specs.Prelude.{◌≡◌, ℕ, ◌-◌, ◌<◌, ◌≤◌, ◌↔◌, Contains, IfErr, IsTrue, OnOk, Some, length, slice_get};
ghost use Rattle.std.specs.List.Sorted.{IsStrictlySortedBy};
ghost use Rattle.std.specs.declared.cmp.Ordering.TheVariants.{Less};
ghost use Rattle.tier_core.specs.KindShapes.{FitsShape};
ghost use Rattle.tier_core.specs.Kinds.{kind_order};
ghost use Rattle.violation.specs.Moves.{cut_kind};
ghost use Rattle.violation.specs.Prefixes.{kind_of_bits};
ghost use Rattle.violation.specs.Problems.{last_stage};
ghost use Rattle.answer_text.specs.Certified.{IsPossibleKind};
ghost use Rattle.cert_check.specs.Faults.{IsInOrder};
ghost use Rattle.cert_check.specs.Parts.{IsFirstInStage};
ghost use Rattle.cert_check.specs.Stops.{StopsBy};
ghost use Rattle.cert_check.specs.Subjects.{IsReady, AscendsAt, AreFirstNodesInOrder, node_kind, problem_of, stage_nodes, stage_kinds};

use crate::cut::cut_to;
use crate::fault::Fault;
use crate::find::has_kind;
use crate::open::open_tiers;
use crate::possible::are_phases_right;
use crate::stop::Stop;
use crate::subject::Subject;
use answer_text::Node;
use tier_core::{Kind, kind_cmp};

/// Whether a kind may be that of a prefix: its place is in the form, and each phase is closed exactly
/// if some left tier is not open.
fn is_possible(subject: &Subject, stage: u32, kind: &Kind) -> bool
    requires ready { IsReady subject.now }
    requires stage { stage ≤ last_stage (problem_of subject.now) }
    ensures { IsTrue result
        ↔ IsPossibleKind (problem_of subject.now) stage
        (kind_of_bits (problem_of subject.now) stage kind.now) }
{
    let form = &subject.answer.form;
    if kind.place as usize > form.len() {
        return false;
    }
    let mask = open_tiers(subject.grammar.tiers.kinds.as_slice(), form, kind);
    let constraints = &subject.grammar.constraints.as_slice()[..stage as usize];
    are_phases_right(constraints, mask, kind)
}

/// Whether a node of a stage comes after the one before it.
fn comes_after(subject: &Subject, stage: u32, nodes: &[Node], number: usize) -> bool
    requires ready { IsReady subject.now }
    requires stage { stage ≤ last_stage (problem_of subject.now) }
    requires nodes { nodes.now ≡ stage_nodes subject.now stage }
    requires within { number < length nodes.now }
    ensures { IsTrue result
        ↔
        (1 ≤ number
        → kind_order (node_kind subject.now stage (number - 1))
        (node_kind subject.now stage number) ≡ Less) }
{
    if number == 0 {
        return true;
    }
    let before = &nodes[number - 1].kind;
    kind_cmp(before, &nodes[number].kind, subject.shape, stage).is_lt()
}

/// Whether the cut of a kind of a stage is a node of the stage before.
fn has_cut_before(subject: &Subject, stage: u32, kind: &Kind) -> bool
    requires ready { IsReady subject.now }
    requires stage { stage ≤ last_stage (problem_of subject.now) }
    requires fits { FitsShape subject.now.shape.now stage kind.now }
    requires before { 1 ≤ stage → AscendsAt subject.now (stage - 1) }
    ensures { IsTrue result
        ↔
        (1 ≤ stage
        → Contains (stage_kinds subject.now (stage - 1))
        (cut_kind (problem_of subject.now) (stage - 1)
        (kind_of_bits (problem_of subject.now) stage kind.now))) }
{
    if stage == 0 {
        return true;
    }
    let before = stage as usize - 1;
    let cut = cut_to(kind, subject.shape.phases[before]);
    has_kind(subject, stage - 1, &cut)
}

/// Whether a node of a stage is in order.
fn is_in_order(subject: &Subject, stage: u32, nodes: &[Node], number: usize) -> bool
    requires ready { IsReady subject.now }
    requires stage { stage ≤ last_stage (problem_of subject.now) }
    requires nodes { nodes.now ≡ stage_nodes subject.now stage }
    requires within { number < length nodes.now }
    requires before { 1 ≤ stage → AscendsAt subject.now (stage - 1) }
    ensures { IsTrue result
        ↔ IsInOrder (problem_of subject.now) subject.now.answer.now.stages.items stage number
        (node_kind subject.now stage number) }
{
    let kind = nodes[number].kind;
    if !is_possible(subject, stage, &kind) {
        return false;
    }
    if !comes_after(subject, stage, nodes, number) {
        return false;
    }
    has_cut_before(subject, stage, &kind)
}

/// Looks at the order of the nodes of a stage. It stops at the first that is wrong.
pub(crate) fn check_order(subject: &Subject, stage: u32) -> Result<(), Stop>
    requires ready { IsReady subject.now }
    requires stage { stage ≤ last_stage (problem_of subject.now) }
    requires before { 1 ≤ stage → AscendsAt subject.now (stage - 1) }
    ensures ok { OnOk result (AreFirstNodesInOrder subject.now stage
        (length (stage_nodes subject.now stage))) }
    ensures err { IfErr result
        (StopsBy (IsFirstInStage (problem_of subject.now) subject.now.answer.now stage)) }
{
    let nodes = subject.answer.stages[stage as usize].nodes.as_slice();
    for number in 0..nodes.len() {
        if !is_in_order(subject, stage, nodes, number) {
            return Err(Stop::Found(Fault::NodeWrong {
                stage,
                node: number as u32,
            }));
        }
    }
    Ok(())
}
