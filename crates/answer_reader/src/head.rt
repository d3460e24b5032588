ghost use Rattle.std.specs.Prelude.{◌≡◌, ◌≤◌, Ok, Err, MatchResult, IfOk};
ghost use Rattle.tier_core.specs.Shapes.{masked_count};
ghost use Rattle.answer_reader.specs.Heads.{head_seen, IsHeadWithin};
ghost use Rattle.answer_reader.specs.Left.{Continues, Takes};
ghost use Rattle.answer_reader.specs.Lines.{header_of};
ghost use Rattle.answer_reader.specs.Reading.{answer_from, stages_behind};

use crate::answer_err::{AnswerCause, AnswerErr};
use crate::counts::read_counts_line;
use crate::lines::Lines;
use crate::on_line::on_line;
use crate::timeline_line::read_timeline_line;
use std::alloc::Global;
use tier_core::{Shape, Timeline};

fn header_of(line: &[u8]) -> Result<(), AnswerCause>
    ensures { MatchResult result (λ _. header_of line.now ≡ Ok tt)
        (λ cause. header_of line.now ≡ Err cause) }
{
    if line == b"answer 1".as_slice() {
        Ok(())
    } else {
        Err(AnswerCause::BadHeader)
    }
}

/// Reads the line `answer 1`.
pub fn read_header(lines: &mut Lines<'_>) -> Result<(), AnswerErr>
    ensures { Takes header_of (λ _. tt) lines.old lines.new result }
{
    let number = lines.number;
    let line = lines.next_line()?;
    on_line(number, header_of(line))
}

/// What the lines before the stages contain.
#[derive(Drop)]
pub(crate) struct Head {
    pub form: Timeline,
    pub counts: Vec<u32>,
    pub example: Timeline,
}

/// The number of input tiers.
fn input_count(shape: &Shape) -> u32
    ensures { result ≡ masked_count shape.now.inputs }
{
    shape.inputs.count_ones()
}

/// Reads the lines before the stages.
pub(crate) fn read_head(
    alloc: Global,
    lines: &mut Lines<'_>,
    shape: &Shape,
) -> Result<Head, AnswerErr>
    ensures goes_on { Continues (answer_from shape.now)
        (λ head. stages_behind shape.now (head_seen head)) lines.old lines.new result }
    ensures within { IfOk result (IsHeadWithin shape.now) }
{
    read_header(lines)?;
    let form = read_timeline_line(alloc, lines, b"form ", input_count(shape), 64)?;
    let counts = read_counts_line(alloc, lines, shape.phases.len() - 1)?;
    let example = read_timeline_line(alloc, lines, b"example ", shape.width, 65_536)?;
    Ok(Head {
        form,
        counts,
        example,
    })
}
