ghost use Rattle.std.specs.Prelude.{◌≡◌, ◌≤◌, ◌↔◌, IsTrue, IfOk, length};
ghost use Rattle.answer_text.specs.Shape.{widths_of};
ghost use Rattle.answer_text.specs.Text.{answer_text};
ghost use Rattle.grammar_reader.specs.Grammars.{value_of};
ghost use Rattle.grammar_reader.specs.ShapeOf.{IsShapeOf};
ghost use Rattle.cert_check.specs.declared.fault.Verdict.TheVariants.{Yes};
ghost use Rattle.otp_tool.specs.Answers.{IsJudged};

use crate::checking::ANSWER_LIMIT;
use answer_reader::{AnswerErr, read_answer};
use answer_text::{Answer, put_answer};
use cert_check::{Verdict, check};
use grammar_reader::Grammar;
use outside::MemSink;
use std::alloc::Global;
use tier_core::{NoMemory, Shape};

/// Whether these bytes are read as an answer without a fault.
fn is_faultless(
    alloc: Global,
    grammar: &Grammar,
    shape: &Shape,
    bytes: &[u8],
) -> Result<bool, NoMemory>
    requires within { length bytes.now ≤ 268435456 }
    requires shape { IsShapeOf grammar.now shape.now }
    ensures { IfOk result
        (λ faultless. IsTrue faultless ↔ IsJudged (value_of grammar.now) bytes.now Yes) }
{
    let answer = match read_answer(alloc, shape, bytes) {
        Ok(answer) => answer,
        Err(AnswerErr::At { .. }) => return Ok(false),
        Err(AnswerErr::NoMemory) => return Err(NoMemory),
    };
    match check(alloc, grammar, &answer)? {
        Verdict::Yes => Ok(true),
        Verdict::No(_) => Ok(false),
    }
}

/// The text of an answer, in a sink in memory, which fails only if memory runs out.
fn answer_in_memory(alloc: Global, shape: &Shape, answer: &Answer) -> Result<MemSink, NoMemory>
    requires { length answer.now.stages.items ≤ length shape.now.phases.items }
    ensures { IfOk result (λ sink. sink.bytes ≡ answer_text (widths_of shape.now) answer.now) }
{
    let mut sink = MemSink::new(alloc, 65_536, Vec::new(alloc));
    match put_answer(&mut sink, shape, answer) {
        Ok(()) => Ok(sink),
        Err(_) => Err(NoMemory),
    }
}

/// Whether the text of an answer is one that `check` answers with Yes.
pub(crate) fn is_checked(
    alloc: Global,
    grammar: &Grammar,
    shape: &Shape,
    answer: &Answer,
) -> Result<bool, NoMemory>
    requires stages { length answer.now.stages.items ≤ length shape.now.phases.items }
    requires shape { IsShapeOf grammar.now shape.now }
    ensures { IfOk result (λ faultless. IsTrue faultless
        ↔ IsJudged (value_of grammar.now) (answer_text (widths_of shape.now) answer.now) Yes) }
{
    let sink = answer_in_memory(alloc, shape, answer)?;
    let bytes = sink.bytes();
    if bytes.len() as u64 > ANSWER_LIMIT {
        return Ok(false);
    }
    is_faultless(alloc, grammar, shape, bytes)
}
