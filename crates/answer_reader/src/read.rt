ghost use Rattle.std.specs.Prelude.{◌≡◌, ◌≤◌, length, Err, IfOk, IfErr};
ghost use Rattle.answer_text.specs.Readable.{IsReadable};
ghost use Rattle.answer_reader.specs.Reading.{answer_of, IsTextOf};
ghost use Rattle.answer_reader.specs.Steps.{Fails};
ghost use Rattle.answer_text.specs.Values.{answer_value};

use crate::answer_err::AnswerErr;
use crate::head::read_head;
use crate::lines::Lines;
use crate::stage_loop::{last_count, read_stages};
use crate::state_loop::read_states;
use answer_text::{Answer, Automaton};
use std::alloc::Global;
use tier_core::Shape;

/// Reads the text of an answer for a grammar of this shape. The text has at most 268,435,456 bytes.
///
/// Lines are read in order, and the first line with a cause gives it, with its number from 1. On one
/// line the causes are tried in this order.
///
/// - `CutShort`: the bytes end before a required line does.
/// - `BadHeader`: line 1 is not `answer 1`.
/// - `BadLine`: the line does not have a form that is allowed there; its timeline is refused; or it
///   does not have one count for each constraint, or one byte for each free tier and each stretch
///   implication.
/// - `BadNumber`: a number has a leading zero or is out of its range.
/// - `BadClass`: a class is not written as classes are, or does not have the width of the grammar.
/// - `BadOrder`: a node, state or arc does not come strictly after the one before it.
/// - `ExtraBytes`: bytes follow the line `end`; the error names the line after it.
///
/// What is read is within the limits that a checker requires. `NoMemory` may be returned in place of
/// any result. The bytes are passed over once, and nothing is held but the answer.
pub fn read_answer(alloc: Global, shape: &Shape, bytes: &[u8]) -> Result<Answer, AnswerErr>
    requires { length bytes.now ≤ 268435456 }
    ensures ok { IfOk result (λ answer. IsTextOf shape.now bytes.now
        (answer_value shape.now answer)) }
    ensures err { IfErr result (λ e. Fails e (answer_of shape.now bytes.now)) }
    ensures readable { IfOk result (IsReadable shape.now) }
{
    let mut lines = Lines::of_text(bytes);
    let head = read_head(alloc, &mut lines, shape)?;
    let found = read_stages(alloc, &mut lines, shape, head.form.len() as u32)?;
    let nodes = last_count(shape, &found.stages);
    let states = read_states(alloc, &mut lines, shape.width, nodes, found.states)?;
    Ok(Answer {
        form: head.form,
        counts: head.counts,
        example: head.example,
        stages: found.stages,
        automaton: Automaton { states },
    })
}
