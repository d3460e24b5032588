ghost use Rattle.std.specs.Prelude.{IfErr, OnOk};
ghost use Rattle.violation.specs.Problems.{last_stage};
ghost use Rattle.cert_check.specs.FirstFaults.{IsFirstFault};
ghost use Rattle.cert_check.specs.Left.{AreLeftAt};
ghost use Rattle.cert_check.specs.States.{IsRightFrom, IsRightBeforeStates};
ghost use Rattle.cert_check.specs.Stops.{StopsBy};
ghost use Rattle.cert_check.specs.Subjects.{problem_of};

use crate::fault::Fault;
use crate::find_state::has_state;
use crate::state_check::check_state;
use crate::stop::Stop;
use crate::subject::Subject;
use answer_text::ArcLine;
use std::alloc::Global;

/// Looks at the states of the automaton, after all stages, with what is left of the moves of each node of
/// the last one. It stops at the first fault.
pub(crate) fn check_states(
    alloc: Global,
    subject: &Subject,
    left: &[Vec<ArcLine>],
) -> Result<(), Stop>
    requires staged { IsRightBeforeStates subject.now }
    requires left { AreLeftAt subject.now (last_stage (problem_of subject.now)) left.now }
    ensures ok { OnOk result (IsRightFrom (problem_of subject.now) subject.now.answer.now) }
    ensures err { IfErr result
        (StopsBy (IsFirstFault (problem_of subject.now) subject.now.answer.now)) }
{
    let states = subject.answer.automaton.states.as_slice();
    if !has_state(states, 0) {
        return Err(Stop::Found(Fault::StateMissing {
            state: 0,
            target: 0,
        }));
    }
    let nodes = subject.answer.stages[subject.grammar.constraints.len()]
        .nodes
        .as_slice();
    for state in states {
        let number = state.node as usize;
        check_state(alloc, subject, state, &nodes[number], &left[number])?;
    }
    Ok(())
}
