ghost use Rattle.std.specs.Prelude.{◌≡◌, ◌+◌, ◌<◌, ◌≤◌, [], length, map, option_map, MatchResult, MatchOption, IfOk, IfSome, Ok, Err, Some, None, true};
ghost use Rattle.answer_reader.specs.Lines.{arc_of, arc_said, arc_words, automaton_of, is_number, number_said, stage_of, stage_said, stage_words, state_of, state_said, state_words};
ghost use Rattle.answer_reader.specs.Cuts.{part_seen, parts_seen};
ghost use Rattle.answer_reader.specs.LineWords.{bare_state, state_words_seen};
ghost use Rattle.answer_text.specs.Values.{arc_value};
ghost use Rattle.answer_text.specs.Readable.{IsReadableArc};

use crate::answer_err::AnswerCause;
use crate::class::class_of;
use crate::cut::{behind, cut};
use crate::number::{is_run, number_below};
use answer_text::ArcLine;

/// The number that a word stands for, below a bound.
fn number_said(bound: u32, word: Option<&[u8]>) -> Result<u32, AnswerCause>
    ensures said { MatchResult result
        (λ n. number_said bound (option_map part_seen word.entry) ≡ Ok n)
        (λ cause. number_said bound (option_map part_seen word.entry) ≡ Err cause) }
    ensures below { IfOk result (λ n. n < bound) }
{
    let Some(word) = word else {
        return Err(AnswerCause::BadLine);
    };
    if !is_run(word) {
        return Err(AnswerCause::BadLine);
    }
    match number_below(bound, word) {
        Some(number) => Ok(number),
        None => Err(AnswerCause::BadNumber),
    }
}

/// The words of a line `stage NUMBER NODES`.
fn stage_words(line: &[u8]) -> Option<(&[u8], &[u8])>
    ensures { option_map parts_seen result ≡ stage_words line.entry.now }
{
    cut(b' ', behind(b"stage ", line)?)
}

fn is_number(number: u32, said: Option<u32>) -> bool
    ensures { result ≡ is_number number said }
{
    match said {
        None => false,
        Some(other) => other == number,
    }
}

/// How many nodes a line `stage NUMBER NODES` announces, if the stage has this number and is one of
/// the stages that there may be.
pub(crate) fn stage_of(stages: u32, next: u32, line: &[u8]) -> Result<u32, AnswerCause>
    ensures said { MatchResult result (λ n. stage_of stages next line.now ≡ Ok n)
        (λ cause. stage_of stages next line.now ≡ Err cause) }
    ensures few { IfOk result (λ n. n ≤ 65536) }
    ensures there { IfOk result (λ n. next < stages) }
{
    let Some((number, nodes)) = stage_words(line) else {
        return Err(AnswerCause::BadLine);
    };
    if !(is_run(number) && is_run(nodes)) {
        return Err(AnswerCause::BadLine);
    }
    if !is_number(next, number_below(stages, number)) {
        return Err(AnswerCause::BadNumber);
    }
    match number_below(65_537, nodes) {
        Some(count) => Ok(count),
        None => Err(AnswerCause::BadNumber),
    }
}

/// How many states a line `automaton STATES` announces: at most as many as there are nodes.
pub(crate) fn automaton_of(nodes: u32, line: &[u8]) -> Result<u32, AnswerCause>
    requires { nodes ≤ 65536 }
    ensures said { MatchResult result (λ n. automaton_of nodes line.now ≡ Ok n)
        (λ cause. automaton_of nodes line.now ≡ Err cause) }
    ensures few { IfOk result (λ n. n ≤ nodes) }
{
    number_said(nodes + 1, behind(b"automaton ", line))
}

/// The words of a line of a state.
#[derive(Clone, Copy)]
pub(crate) struct StateWords<'a> {
    pub node: &'a [u8],
    pub accepting: bool,
}

fn state_words(line: &[u8]) -> Option<StateWords<'_>>
    ensures { option_map state_words_seen result ≡ state_words line.entry.now }
{
    let rest = behind(b"state ", line)?;
    match cut(b' ', rest) {
        None => Some(StateWords {
            node: rest,
            accepting: false,
        }),
        Some((node, mark)) => {
            if mark == b"final".as_slice() {
                Some(StateWords {
                    node,
                    accepting: true,
                })
            } else {
                None
            }
        }
    }
}

/// What the line of a state says: the number of its node, below the number of nodes, and whether it
/// is final.
pub(crate) fn state_of(nodes: u32, line: &[u8]) -> Result<(u32, bool), AnswerCause>
    ensures said { MatchResult result (λ state. state_of nodes line.now ≡ Ok (bare_state state))
        (λ cause. state_of nodes line.now ≡ Err cause) }
    ensures there { IfOk result (λ state. state.0 < nodes) }
{
    let Some(words) = state_words(line) else {
        return Err(AnswerCause::BadLine);
    };
    if !is_run(words.node) {
        return Err(AnswerCause::BadLine);
    }
    match number_below(nodes, words.node) {
        Some(node) => Ok((node, words.accepting)),
        None => Err(AnswerCause::BadNumber),
    }
}

/// The words of a line `arc TARGET CLASS`.
fn arc_words(line: &[u8]) -> Option<(&[u8], &[u8])>
    ensures { option_map parts_seen result ≡ arc_words line.entry.now }
{
    cut(b' ', behind(b"arc ", line)?)
}

/// The arc on a line: its target is below the number of nodes, and its class has this width.
pub(crate) fn arc_of(width: u32, nodes: u32, line: &[u8]) -> Result<ArcLine, AnswerCause>
    requires some { 1 ≤ width }
    requires few { width ≤ 12 }
    ensures said { MatchResult result (λ arc. arc_of width nodes line.now ≡ Ok (arc_value arc))
        (λ cause. arc_of width nodes line.now ≡ Err cause) }
    ensures within { IfOk result (IsReadableArc width nodes) }
{
    let Some((target, text)) = arc_words(line) else {
        return Err(AnswerCause::BadLine);
    };
    if !is_run(target) {
        return Err(AnswerCause::BadLine);
    }
    let Some(target) = number_below(nodes, target) else {
        return Err(AnswerCause::BadNumber);
    };
    match class_of(width, text) {
        Some(class) => Ok(ArcLine { target, class }),
        None => Err(AnswerCause::BadClass),
    }
}
