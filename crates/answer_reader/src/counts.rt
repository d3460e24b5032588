ghost use Rattle.std.specs.Prelude.{◌≡◌, ◌≤◌, length, [], true, Ok, Err, All, MatchResult, option_map, IfOk, IfErr, IfSome};
ghost use Rattle.std.specs.List.{list_all, slice_split};
ghost use Rattle.answer_reader.specs.declared.answer_err.AnswerErr.TheVariants.{NoMemory};
ghost use Rattle.answer_reader.specs.declared.answer_err.AnswerCause.TheVariants.{BadLine};
ghost use Rattle.timeline_text.specs.Bytes.{is_space};
ghost use Rattle.answer_reader.specs.Left.{Takes};
ghost use Rattle.answer_reader.specs.Lines.{counts_of};
ghost use Rattle.answer_reader.specs.Numbers.{is_run, numbers_below};
ghost use Rattle.answer_reader.specs.Seen.{numbers_seen};

use crate::answer_err::{AnswerCause, AnswerErr};
use crate::cut::behind;
use crate::lines::Lines;
use crate::number::{is_run, number_below};
use crate::on_line::on_line;
use std::alloc::Global;

/// How many words the spaces separate.
fn word_count(text: &[u8]) -> usize
    ensures { result ≡ length (slice_split is_space text.now) }
{
    text.split(|byte| *byte == b' ').count()
}

/// Whether each of the words is a run of digits.
fn are_runs(text: &[u8]) -> bool
    ensures { result ≡ list_all is_run (slice_split is_space text.now) }
{
    text.split(|byte| *byte == b' ').all(|word| is_run(word))
}

/// The numbers of the words, each at most 1,000,000,000. None if one has a leading zero or is above
/// that.
fn numbers_of(alloc: Global, text: &[u8]) -> Result<Option<Vec<u32>>, AnswerErr>
    requires { list_all is_run (slice_split is_space text.now) ≡ true }
    ensures ok { IfOk result (λ read. option_map numbers_seen read
        ≡ numbers_below 1000000001 (slice_split is_space text.now)) }
    ensures within { IfOk result (λ read. IfSome read
        (λ numbers. All (λ n. n ≤ 1000000000) numbers.items)) }
    ensures err { IfErr result (λ e. e ≡ NoMemory) }
{
    let mut numbers = Vec::new(alloc);
    for word in text.split(|byte| *byte == b' ') {
        let Some(number) = number_below(1_000_000_001, word) else {
            return Ok(None);
        };
        numbers.push(number)?;
    }
    Ok(Some(numbers))
}

/// No counts, for a grammar without constraints.
fn no_counts(alloc: Global, constraints: usize) -> Result<Vec<u32>, AnswerCause>
    ensures { MatchResult result
        (λ counts. (constraints ≡ 0) × (counts.items ≡ []))
        (λ cause. (1 ≤ constraints) × (cause ≡ BadLine)) }
{
    if constraints == 0 {
        Ok(Vec::new(alloc))
    } else {
        Err(AnswerCause::BadLine)
    }
}

/// The counts on a line, one for each constraint, or the line's cause.
fn counts_in(
    alloc: Global,
    constraints: usize,
    line: &[u8],
) -> Result<Result<Vec<u32>, AnswerCause>, AnswerErr>
    ensures ok { IfOk result (λ said. MatchResult said
        (λ counts. counts_of constraints line.now ≡ Ok counts.items)
        (λ cause. counts_of constraints line.now ≡ Err cause)) }
    ensures within { IfOk result (λ said. IfOk said
        (λ counts. All (λ n. n ≤ 1000000000) counts.items)) }
    ensures err { IfErr result (λ e. e ≡ NoMemory) }
{
    if line == b"counts".as_slice() {
        return Ok(no_counts(alloc, constraints));
    }
    let Some(text) = behind(b"counts ", line) else {
        return Ok(Err(AnswerCause::BadLine));
    };
    if !(word_count(text) == constraints && are_runs(text)) {
        return Ok(Err(AnswerCause::BadLine));
    }
    match numbers_of(alloc, text)? {
        Some(counts) => Ok(Ok(counts)),
        None => Ok(Err(AnswerCause::BadNumber)),
    }
}

/// Reads the line of the counts, one for each constraint.
pub(crate) fn read_counts_line(
    alloc: Global,
    lines: &mut Lines<'_>,
    constraints: usize,
) -> Result<Vec<u32>, AnswerErr>
    ensures takes { Takes (counts_of constraints) numbers_seen lines.old lines.new result }
    ensures one_each { IfOk result (λ counts. length counts.items ≡ constraints) }
    ensures within { IfOk result (λ counts. All (λ n. n ≤ 1000000000) counts.items) }
{
    let number = lines.number;
    let line = lines.next_line()?;
    let said = counts_in(alloc, constraints, line)?;
    on_line(number, said)
}
