ghost use Rattle.std.specs.Prelude.{◌≡◌, ◌-◌, ◌≤◌, IfOk};
ghost use Rattle.violation.specs.Problems.{last_stage};
ghost use Rattle.cert_check.specs.Left.{AreTestsAt};
ghost use Rattle.cert_check.specs.Subjects.{IsReady, AscendsAt, problem_of};

use crate::column_tests::{constraint_tests, open_tests};
use crate::cut::cut_to;
use crate::find::find_kind;
use crate::subject::Subject;
use std::alloc::{AllocError, Global};
use tier_core::{Class, NoMemory};

/// What is the same for all nodes of a stage.
#[derive(Drop)]
pub(crate) struct Ground {
    /// Classes by which columns are told apart.
    pub tests: Vec<Class>,
    /// For nodes of the stage before, by number, a number at which the first node may stand that has this
    /// cut. Each is looked at before it is believed.
    pub hints: Vec<usize>,
}

impl Ground {
    /// Where the first node may stand that has the node with this number at the stage before as its cut.
    pub(crate) fn hint(&self, number: u32) -> usize {
        match self.hints.get(number as usize) {
            Some(hint) => *hint,
            None => 0,
        }
    }
}

/// Classes by which the columns of a stage are told apart: those of its last constraint, or at stage 0
/// those of the tiers that are open after a column.
fn stage_tests(alloc: Global, subject: &Subject, stage: u32) -> Result<Vec<Class>, NoMemory>
    requires ready { IsReady subject.now }
    requires stage { stage ≤ last_stage (problem_of subject.now) }
    ensures { IfOk result (λ tests. AreTestsAt (problem_of subject.now) stage tests.items) }
{
    let width = subject.grammar.tiers.kinds.as_slice().len() as u32;
    if stage == 0 {
        return open_tests(alloc, width);
    }
    constraint_tests(
        alloc,
        width,
        &subject.grammar.constraints[stage as usize - 1],
    )
}

/// Puts a number at the end of a list until the list has one at a place.
fn fill_to(hints: &mut Vec<usize>, place: usize, number: usize) -> Result<(), AllocError> {
    for _ in hints.len()..place {
        hints.push(number)?;
    }
    Ok(())
}

/// For each node of the stage before, where the first node may stand that has this cut.
fn hints_of(alloc: Global, subject: &Subject, stage: u32) -> Result<Vec<usize>, AllocError>
    requires ready { IsReady subject.now }
    requires some { 1 ≤ stage }
    requires stage { stage ≤ last_stage (problem_of subject.now) }
    requires before { AscendsAt subject.now (stage - 1) }
{
    let earlier = stage as usize - 1;
    let mut hints = Vec::new(alloc);
    let nodes = subject.answer.stages[stage as usize].nodes.as_slice();
    for number in 0..nodes.len() {
        let cut = cut_to(&nodes[number].kind, subject.shape.phases[earlier]);
        if let Some(place) = find_kind(subject, stage - 1, &cut) {
            fill_to(&mut hints, place + 1, number)?;
        }
    }
    Ok(hints)
}

/// What is the same for all nodes of a stage. Fails only if memory runs out.
pub(crate) fn ground_of(alloc: Global, subject: &Subject, stage: u32) -> Result<Ground, NoMemory>
    requires ready { IsReady subject.now }
    requires stage { stage ≤ last_stage (problem_of subject.now) }
    requires before { 1 ≤ stage → AscendsAt subject.now (stage - 1) }
    ensures { IfOk result (λ ground. AreTestsAt (problem_of subject.now) stage ground.tests.items) }
{
    let tests = stage_tests(alloc, subject, stage)?;
    if stage == 0 {
        let hints = Vec::new(alloc);
        return Ok(Ground { tests, hints });
    }
    let hints = hints_of(alloc, subject, stage)?;
    Ok(Ground { tests, hints })
}
