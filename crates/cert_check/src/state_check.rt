ghost use Rattle.std.specs.Prelude.{◌≡◌, ◌↔◌, IfErr, IsTrue, OnOk};
ghost use Rattle.violation.specs.Problems.{last_stage};
ghost use Rattle.cert_check.specs.Parts.{IsFirstInState};
ghost use Rattle.cert_check.specs.States.{AreKeptArcs, IsRightPartOf, IsRightState, IsRightBeforeStates, IsStateAt, last_kind};
ghost use Rattle.cert_check.specs.Stops.{StopsBy};
ghost use Rattle.cert_check.specs.Subjects.{problem_of};

use crate::differing::least_differing;
use crate::fault::Fault;
use crate::final_kind::is_final;
use crate::find_state::has_state;
use crate::overlap::least_twice;
use crate::stop::Stop;
use crate::subject::Subject;
use crate::target::target_on;
use answer_text::{ArcLine, Node, StateLine};
use std::alloc::Global;

/// Looks at the targets of a state's arcs. Each is a state.
fn check_targets(subject: &Subject, state: &StateLine, node: &Node) -> Result<(), Stop>
    requires staged { IsRightBeforeStates subject.now }
    requires at { IsStateAt subject.now state.now node.now }
    ensures ok { OnOk result
        (IsRightPartOf (problem_of subject.now) subject.now.answer.now state.now.node 0) }
    ensures err { IfErr result
        (StopsBy
        (IsFirstInState (problem_of subject.now) subject.now.answer.now state.now.node)) }
{
    let states = subject.answer.automaton.states.as_slice();
    for arc in &state.arcs {
        if !has_state(states, arc.target) {
            return Err(Stop::Found(Fault::StateMissing {
                state: state.node,
                target: arc.target,
            }));
        }
    }
    Ok(())
}

fn is_same(a: bool, b: bool) -> bool
    ensures { IsTrue result ↔ (a ≡ b) }
{
    a == b
}

/// Looks at the mark of a state, after the targets of its arcs.
fn check_mark(subject: &Subject, state: &StateLine, node: &Node) -> Result<(), Stop>
    requires staged { IsRightBeforeStates subject.now }
    requires at { IsStateAt subject.now state.now node.now }
    requires targets { IsRightPartOf (problem_of subject.now) subject.now.answer.now
        state.now.node 0 }
    ensures ok { OnOk result
        (IsRightPartOf (problem_of subject.now) subject.now.answer.now state.now.node 1) }
    ensures err { IfErr result
        (StopsBy
        (IsFirstInState (problem_of subject.now) subject.now.answer.now state.now.node)) }
{
    if !is_same(state.accepting, is_final(subject, &node.kind)) {
        return Err(Stop::Found(Fault::FinalsDiffer {
            state: state.node,
            listed: state.accepting,
        }));
    }
    Ok(())
}

/// Looks for columns that are in two arcs of a state, after its mark.
fn check_once(alloc: Global, subject: &Subject, state: &StateLine, node: &Node) -> Result<(), Stop>
    requires staged { IsRightBeforeStates subject.now }
    requires at { IsStateAt subject.now state.now node.now }
    requires targets { IsRightPartOf (problem_of subject.now) subject.now.answer.now
        state.now.node 0 }
    requires mark { IsRightPartOf (problem_of subject.now) subject.now.answer.now state.now.node 1 }
    ensures ok { OnOk result
        (IsRightPartOf (problem_of subject.now) subject.now.answer.now state.now.node 2) }
    ensures err { IfErr result
        (StopsBy
        (IsFirstInState (problem_of subject.now) subject.now.answer.now state.now.node)) }
{
    let least = least_twice(alloc, &state.arcs)?;
    match least {
        None => Ok(()),
        Some(column) => Err(Stop::Found(Fault::ArcsTwice {
            state: state.node,
            column,
        })),
    }
}

/// Compares the arcs of a state, no two of which share a column, with those that are kept at the end.
fn check_arcs(
    alloc: Global,
    subject: &Subject,
    state: &StateLine,
    node: &Node,
    kept: &[ArcLine],
) -> Result<(), Stop>
    requires staged { IsRightBeforeStates subject.now }
    requires at { IsStateAt subject.now state.now node.now }
    requires kept { AreKeptArcs (problem_of subject.now) subject.now.answer.now
        (last_kind subject.now node.now) kept.now }
    requires targets { IsRightPartOf (problem_of subject.now) subject.now.answer.now
        state.now.node 0 }
    requires mark { IsRightPartOf (problem_of subject.now) subject.now.answer.now state.now.node 1 }
    requires once { IsRightPartOf (problem_of subject.now) subject.now.answer.now state.now.node 2 }
    ensures ok { OnOk result
        (IsRightPartOf (problem_of subject.now) subject.now.answer.now state.now.node 3) }
    ensures err { IfErr result
        (StopsBy
        (IsFirstInState (problem_of subject.now) subject.now.answer.now state.now.node)) }
{
    let least = least_differing(alloc, &state.arcs, kept)?;
    match least {
        None => Ok(()),
        Some(column) => {
            let listed = target_on(&state.arcs, &column);
            let kept = target_on(kept, &column);
            Err(Stop::Found(Fault::ArcsDiffer {
                state: state.node,
                column,
                listed,
                kept,
            }))
        }
    }
}

/// Looks at a state, whose arcs are these if nothing is wrong with it. It stops at its first fault.
pub(crate) fn check_state(
    alloc: Global,
    subject: &Subject,
    state: &StateLine,
    node: &Node,
    kept: &[ArcLine],
) -> Result<(), Stop>
    requires staged { IsRightBeforeStates subject.now }
    requires at { IsStateAt subject.now state.now node.now }
    requires kept { AreKeptArcs (problem_of subject.now) subject.now.answer.now
        (last_kind subject.now node.now) kept.now }
    ensures ok { OnOk result
        (IsRightState (problem_of subject.now) subject.now.answer.now state.now.node) }
    ensures err { IfErr result
        (StopsBy
        (IsFirstInState (problem_of subject.now) subject.now.answer.now state.now.node)) }
{
    check_targets(subject, state, node)?;
    check_mark(subject, state, node)?;
    check_once(alloc, subject, state, node)?;
    check_arcs(alloc, subject, state, node, kept)
}
