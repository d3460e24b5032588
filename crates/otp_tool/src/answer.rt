ghost use Rattle.std.specs.Prelude.{◌≡◌, ◌≤◌, length, IfOk, IfErr};
ghost use Rattle.tier_core.specs.Tables.{tiers_of_table};
ghost use Rattle.violation.specs.Candidates.{IsForm};
ghost use Rattle.violation.specs.Problems.{problem_from};
ghost use Rattle.answer_text.specs.Right.{IsRight};
ghost use Rattle.kind_orders.specs.JoinedArcs.{HaveJoinedArcs};
ghost use Rattle.ranked_gen.specs.Budgets.{AreAllWithin, HaveFewKinds};
ghost use Rattle.grammar_reader.specs.Grammars.{value_of};
ghost use Rattle.otp_tool.specs.Grammars.{IsAsked};
ghost use Rattle.otp_tool.specs.Findings.{FindsForAnswer};
ghost use Rattle.otp_tool.specs.Steps.{IsAnswerFor, IsRefusal, RefusesBudget, RefusesForm};

use answer_text::Answer;
use command_line::Status;
use form_reader::read_form;
use grammar_reader::Grammar;
use ranked_gen::{GenErr, generate};
use std::alloc::Global;
use tier_core::Timeline;
use timeline_text::FormErr;

/// Reads the form that word 2 is.
pub(crate) fn form_of(alloc: Global, grammar: &Grammar, word: &str) -> Result<Timeline, Status>
    ensures ok { IfOk result (λ form. IsAsked (value_of grammar.now) word.now
        (problem_from grammar.now.tiers grammar.now.constraints.items form)) }
    ensures form { IfOk result (IsForm (tiers_of_table grammar.now.tiers)) }
    ensures short { IfOk result (λ form. length form ≤ 64) }
    ensures err { IfErr result (IsRefusal (RefusesForm (value_of grammar.now) word.now)) }
{
    match read_form(alloc, grammar, word.as_bytes()) {
        Ok(form) => Ok(form),
        Err(FormErr::NoMemory) => Err(Status::NoMemory),
        Err(cause) => Err(Status::FormRefused { word: 2, cause }),
    }
}

/// Generates the answer for a grammar and a form.
pub(crate) fn answer_for(
    alloc: Global,
    grammar: &Grammar,
    form: &Timeline,
    budget: u32,
) -> Result<Answer, Status>
    requires form { IsForm (tiers_of_table grammar.now.tiers) form.now }
    requires short { length form.now ≤ 64 }
    requires some { 1 ≤ budget }
    requires few { budget ≤ 65536 }
    ensures right { IfOk result (IsRight
        (problem_from grammar.now.tiers grammar.now.constraints.items form.now)) }
    ensures joined { IfOk result (λ answer. HaveJoinedArcs answer.automaton.states.items) }
    ensures within { IfOk result (λ answer. AreAllWithin
        (problem_from grammar.now.tiers grammar.now.constraints.items form.now) budget) }
    ensures listed { IfOk result (λ answer. HaveFewKinds
        (problem_from grammar.now.tiers grammar.now.constraints.items form.now) budget) }
    ensures err { IfErr result (IsRefusal (RefusesBudget
        (problem_from grammar.now.tiers grammar.now.constraints.items form.now) budget)) }
{
    match generate(alloc, grammar, form, budget) {
        Ok(answer) => Ok(answer),
        Err(GenErr::Budget { stage }) => Err(Status::Budget { entry: 0, stage }),
        Err(GenErr::NoMemory) => Err(Status::NoMemory),
    }
}

/// Generates the answer for a grammar and the form that a word is read as.
pub(crate) fn make_answer(
    alloc: Global,
    grammar: &Grammar,
    word: &str,
    budget: u32,
) -> Result<Answer, Status>
    requires some { 1 ≤ budget }
    requires few { budget ≤ 65536 }
    ensures ok { IfOk result (IsAnswerFor grammar.now.tiers grammar.now.constraints.items
        (value_of grammar.now) word.now budget) }
    ensures err { IfErr result (IsRefusal
        (FindsForAnswer (value_of grammar.now) word.now budget)) }
{
    match form_of(alloc, grammar, word) {
        Ok(form) => answer_for(alloc, grammar, &form, budget),
        Err(status) => Err(status),
    }
}
