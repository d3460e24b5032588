ghost use Rattle.std.specs.Prelude.{◌≡◌, ◌≤◌, length, IfOk, IfErr};
ghost use Rattle.tier_core.specs.Tables.{tiers_of_table};
ghost use Rattle.violation.specs.Candidates.{IsForm};
ghost use Rattle.violation.specs.Problems.{problem_from};
ghost use Rattle.violation.specs.Rests.{AreWholeKindsWithin};
ghost use Rattle.answer_text.specs.RightOnce.{IsRightOnce};
ghost use Rattle.grammar_reader.specs.Grammars.{value_of};
ghost use Rattle.kind_orders.specs.JoinedArcs.{HaveJoinedArcs};
ghost use Rattle.otp_tool.specs.Findings.{FindsForOnce};
ghost use Rattle.otp_tool.specs.Results.{IsOnceText};
ghost use Rattle.otp_tool.specs.Steps.{IsRefusal, IsStep, RefusesOnce, taking_of};

use crate::answer::form_of;
use crate::results::write_status;
use answer_text::{OnceAnswer, put_once};
use command_line::Status;
use grammar_reader::{Grammar, shape};
use outside::Sink;
use ranked_gen::{GenErr, generate_once};
use std::alloc::Global;
use tier_core::Timeline;

/// Finds the answer for a grammar and a form in a single pass.
fn once_for(
    alloc: Global,
    grammar: &Grammar,
    form: &Timeline,
    budget: u32,
) -> Result<OnceAnswer, Status>
    requires form { IsForm (tiers_of_table grammar.now.tiers) form.now }
    requires short { length form.now ≤ 64 }
    requires some { 1 ≤ budget }
    requires few { budget ≤ 65536 }
    ensures right { IfOk result (IsRightOnce
        (problem_from grammar.now.tiers grammar.now.constraints.items form.now)) }
    ensures joined { IfOk result (λ answer. HaveJoinedArcs answer.automaton.states.items) }
    ensures within { IfOk result (λ answer. AreWholeKindsWithin
        (problem_from grammar.now.tiers grammar.now.constraints.items form.now) budget) }
    ensures err { IfErr result (IsRefusal (RefusesOnce
        (problem_from grammar.now.tiers grammar.now.constraints.items form.now) budget)) }
{
    match generate_once(alloc, grammar, form, budget) {
        Ok(answer) => Ok(answer),
        Err(GenErr::Budget { stage }) => Err(Status::Budget { entry: 0, stage }),
        Err(GenErr::NoMemory) => Err(Status::NoMemory),
    }
}

/// Finds the answer for a grammar and a form's word in a single pass, and writes it.
pub(crate) fn once<O: Sink>(
    alloc: Global,
    grammar: &Grammar,
    form: &str,
    budget: u32,
    sink: &mut O,
) -> Status
    requires some { 1 ≤ budget }
    requires few { budget ≤ 65536 }
    ensures step { IsStep (FindsForOnce (value_of grammar.now) form.now budget)
        (IsOnceText (value_of grammar.now) form.now)
        (taking_of O.Sink sink.old sink.new) result }
    ensures never_falls { O.faults sink.old ≤ O.faults sink.new }
{
    let form = match form_of(alloc, grammar, form) {
        Ok(form) => form,
        Err(status) => return status,
    };
    let answer = match once_for(alloc, grammar, &form, budget) {
        Ok(answer) => answer,
        Err(status) => return status,
    };
    match shape(alloc, grammar) {
        Ok(shape) => write_status(put_once(sink, &shape, &answer)),
        Err(_) => Status::NoMemory,
    }
}
