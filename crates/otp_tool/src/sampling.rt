ghost use Rattle.std.specs.Prelude.{◌≡◌, ◌+◌, ◌≤◌, ◌↔◌, ℕ, IsTrue, List, IfOk, length};
ghost use Rattle.tier_core.specs.declared.sym.Sym.{Sym};
ghost use Rattle.violation.specs.Problems.{problem_from};
ghost use Rattle.cert_check.specs.declared.fault.Verdict.TheVariants.{Yes};
ghost use Rattle.grammar_reader.specs.Grammars.{value_of};
ghost use Rattle.otp_tool.specs.Answers.{IsJudged};
ghost use Rattle.otp_tool.specs.Findings.{FindsForAnswer};
ghost use Rattle.otp_tool.specs.Results.{IsSampleText, whole_text};
ghost use Rattle.otp_tool.specs.Samples.{pairs_of, sample_word};
ghost use Rattle.otp_tool.specs.Steps.{IsStep, taking_of};

use crate::answer::make_answer;
use crate::results::write_status;
use crate::sample_check::is_checked;
use crate::sample_form::sample_word;
use crate::sample_pairs::pairs_of;
use crate::sample_text::{Summary, put_sample};
use answer_text::Answer;
use command_line::Status;
use grammar_reader::{Grammar, shape};
use outside::Sink;
use std::alloc::Global;
use tier_core::NoMemory;

/// How many kinds of prefix a stage of a sample may have. No stage has as many.
const BUDGET: u32 = 20_000;

/// Sums up an answer: counts its pairs of states, and checks its text. Fails only if memory runs out.
fn summed_up(alloc: Global, grammar: &Grammar, answer: &Answer) -> Result<Summary, NoMemory>
    requires { length answer.now.stages.items ≡ length grammar.now.constraints.items + 1 }
    ensures pairs { IfOk result (λ summary. summary.pairs
        ≡ length (pairs_of answer.now.automaton.states.items)) }
    ensures checked { IfOk result (λ summary. (u : List (List Sym)) → IsTrue summary.faultless
        ↔ IsJudged (value_of grammar.now)
        (whole_text (problem_from grammar.now.tiers grammar.now.constraints.items u) answer.now)
        Yes) }
{
    let shape = shape(alloc, grammar)?;
    let faultless = is_checked(alloc, grammar, &shape, answer)?;
    match pairs_of(alloc, answer.automaton.states.as_slice()) {
        Ok(pairs) => Ok(Summary {
            pairs: pairs.as_slice().len(),
            faultless,
        }),
        Err(_) => Err(NoMemory),
    }
}

/// Generates the answer to the form that a number makes, checks it, and writes its summary.
pub(crate) fn sample<O: Sink>(
    alloc: Global,
    grammar: &Grammar,
    letters: u32,
    sink: &mut O,
) -> Status
    ensures step { IsStep (FindsForAnswer (value_of grammar.now) (sample_word letters) 20000)
        (IsSampleText letters (value_of grammar.now))
        (taking_of O.Sink sink.old sink.new) result }
    ensures never_falls { O.faults sink.old ≤ O.faults sink.new }
{
    let Ok(word) = sample_word(alloc, letters) else {
        return Status::NoMemory;
    };
    let answer = match make_answer(alloc, grammar, word.as_str(), BUDGET) {
        Ok(answer) => answer,
        Err(status) => return status,
    };
    match summed_up(alloc, grammar, &answer) {
        Ok(summary) => write_status(put_sample(sink, word.as_bytes(), &answer, summary)),
        Err(_) => Status::NoMemory,
    }
}
