ghost use Rattle.std.specs.Prelude.{◌≡◌, ◌≤◌, Ok, Err, MatchResult, MatchOption, option_and_then, option_map, IfOk, IfErr};
ghost use Rattle.answer_reader.specs.declared.answer_err.AnswerErr.TheVariants.{NoMemory};
ghost use Rattle.answer_reader.specs.declared.answer_err.AnswerCause.TheVariants.{BadLine};
ghost use Rattle.answer_reader.specs.Left.{Takes};
ghost use Rattle.answer_reader.specs.Timelines.{is_no_memory, timeline_of, timeline_said};
ghost use Rattle.timeline_text.specs.Texts.{IsTextOf, text_of};

use crate::answer_err::{AnswerCause, AnswerErr};
use crate::cut::behind;
use crate::lines::Lines;
use crate::on_line::on_line;
use std::alloc::Global;
use tier_core::Timeline;
use timeline_text::{FormErr, read_timeline};

/// Whether memory ran out.
fn is_no_memory(cause: FormErr) -> bool
    ensures { result ≡ is_no_memory cause }
{
    matches!(cause, FormErr::NoMemory)
}

/// The timeline of a text over `width` tiers, with at most `limit` columns. None if the text is
/// not a timeline.
fn timeline_of(
    alloc: Global,
    width: u32,
    limit: usize,
    text: &[u8],
) -> Result<Option<Timeline>, AnswerErr>
    requires some { 1 ≤ width }
    requires few { width ≤ 12 }
    ensures ok { IfOk result (λ read. read ≡ timeline_of width limit text.now) }
    ensures err { IfErr result (λ e. e ≡ NoMemory) }
{
    match read_timeline(alloc, width, limit, text) {
        Ok(timeline) => Ok(Some(timeline)),
        Err(cause) => {
            if is_no_memory(cause) {
                return Err(AnswerErr::NoMemory);
            }
            Ok(None)
        }
    }
}

/// The timeline that follows a word on a line.
fn timeline_behind(
    alloc: Global,
    word: &[u8],
    width: u32,
    limit: usize,
    line: &[u8],
) -> Result<Option<Timeline>, AnswerErr>
    requires some { 1 ≤ width }
    requires few { width ≤ 12 }
    ensures ok { IfOk result (λ read. MatchOption read
        (timeline_said word.now width limit line.now ≡ Err BadLine)
        (λ timeline. timeline_said word.now width limit line.now ≡ Ok timeline)) }
    ensures err { IfErr result (λ e. e ≡ NoMemory) }
{
    match behind(word, line) {
        Some(text) => timeline_of(alloc, width, limit, text),
        None => Ok(None),
    }
}

/// What was read, or the cause of a line that does not have the form.
fn in_form(read: Option<Timeline>) -> Result<Timeline, AnswerCause>
    ensures { MatchResult result
        (λ timeline. MatchOption read ⊥ (λ each. each ≡ timeline))
        (λ cause. (cause ≡ BadLine) × MatchOption read (Unit {0}) (λ each. ⊥)) }
{
    match read {
        Some(timeline) => Ok(timeline),
        None => Err(AnswerCause::BadLine),
    }
}

/// Reads a line of a word and a timeline over `width` tiers, with at most `limit` columns.
pub(crate) fn read_timeline_line(
    alloc: Global,
    lines: &mut Lines<'_>,
    word: &[u8],
    width: u32,
    limit: usize,
) -> Result<Timeline, AnswerErr>
    requires some { 1 ≤ width }
    requires few { width ≤ 12 }
    ensures takes { Takes (timeline_said word.now width limit) (λ T. T) lines.old lines.new result }
    ensures within { IfOk result (λ T. IsTextOf width limit (text_of T) T) }
{
    let number = lines.number;
    let line = lines.next_line()?;
    let read = timeline_behind(alloc, word, width, limit, line)?;
    on_line(number, in_form(read))
}
