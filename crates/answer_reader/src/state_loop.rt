ghost use Rattle.std.specs.Prelude.{◌≡◌, ◌≤◌, ◌<◌, ◌++◌, ◌∷◌, [], ℕ, Bool, List, true, Ok, Err, MatchResult, suc, length, map, IfOk, OnOk, All};
ghost use Rattle.answer_text.specs.Readable.{AreReadableStates, IsReadableArc, IsReadableState};
ghost use Rattle.answer_reader.specs.Left.{Continues, Takes, lines_left};
ghost use Rattle.answer_reader.specs.Lines.{end_line};
ghost use Rattle.answer_reader.specs.Orders.{follows, state_less};
ghost use Rattle.answer_reader.specs.Steps.{Fails};
ghost use Rattle.answer_reader.specs.LineWords.{bare_state, with_arcs};
ghost use Rattle.answer_reader.specs.States.{at_end, behind_states, in_state, states_from};
ghost use Rattle.answer_text.specs.Values.{StateValue, arc_value, state_value};

use crate::answer_err::{AnswerCause, AnswerErr};
use crate::lines::Lines;
use crate::on_line::on_line;
use crate::states::{read_arc, read_state_line};
use answer_text::{ArcLine, StateLine};
use std::alloc::Global;

/// Reads the arcs of a state that has none yet.
fn read_arcs(
    alloc: Global,
    lines: &mut Lines<'_>,
    width: u32,
    nodes: u32,
) -> Result<Vec<ArcLine>, AnswerErr>
    requires some { 1 ≤ width }
    requires few { width ≤ 12 }
    ensures goes_on { (more : ℕ) (states : List StateValue) (state : ℕ × Bool) → Continues
        (states_from width nodes (in_state more states (bare_state state)))
        (λ arcs. states_from width nodes
        (behind_states more (states ++ with_arcs state (map arc_value arcs.items) ∷ [])))
        lines.old lines.new result }
    ensures readable { IfOk result (λ arcs. All (IsReadableArc width nodes) arcs.items) }
{
    let mut arcs = Vec::new(alloc);
    'reading: while lines.begins(b"arc ") {
        let arc = read_arc(lines, width, nodes, &arcs)?;
        arcs.push(arc)?;
    }
    Ok(arcs)
}

/// Reads the state that follows these.
fn read_state(
    alloc: Global,
    lines: &mut Lines<'_>,
    width: u32,
    nodes: u32,
    states: &[StateLine],
) -> Result<StateLine, AnswerErr>
    requires some { 1 ≤ width }
    requires few { width ≤ 12 }
    ensures goes_on { (more : ℕ) → Continues
        (states_from width nodes (behind_states (suc more) (map state_value states.now)))
        (λ state. states_from width nodes
        (behind_states more (map state_value states.now ++ state_value state ∷ [])))
        lines.old lines.new result }
    ensures follows { IfOk result (λ state. follows state_less (map state_value states.now)
        (state_value state) ≡ true) }
    ensures readable { IfOk result (IsReadableState width nodes) }
{
    let (node, accepting) = read_state_line(lines, nodes, states)?;
    let arcs = read_arcs(alloc, lines, width, nodes)?;
    Ok(StateLine {
        node,
        accepting,
        arcs,
    })
}

fn end_of(line: &[u8]) -> Result<(), AnswerCause>
    ensures { MatchResult result (λ _. end_line line.now ≡ Ok tt)
        (λ cause. end_line line.now ≡ Err cause) }
{
    if line == b"end".as_slice() {
        Ok(())
    } else {
        Err(AnswerCause::BadLine)
    }
}

/// Reads the line `end`.
fn read_end_line(lines: &mut Lines<'_>) -> Result<(), AnswerErr>
    ensures { Takes end_line (λ _. tt) lines.old lines.new result }
{
    let number = lines.number;
    let line = lines.next_line()?;
    on_line(number, end_of(line))
}

/// Ok if nothing is left, and `ExtraBytes` on this line otherwise.
fn nothing_left(lines: &Lines<'_>) -> Result<(), AnswerErr>
    ensures { MatchResult result
        (λ _. lines_left lines.now ≡ [] ∷ [])
        (λ e. (states : List StateValue)
        → Fails e (at_end states lines.now.number (lines_left lines.now))) }
{
    if lines.rest.is_empty() {
        Ok(())
    } else {
        Err(AnswerErr::At {
            line: lines.number,
            cause: AnswerCause::ExtraBytes,
        })
    }
}

/// Reads the line `end`, which nothing follows.
fn read_end(lines: &mut Lines<'_>) -> Result<(), AnswerErr>
    ensures { (width nodes : ℕ) (states : List StateValue) → Continues
        (states_from width nodes (behind_states 0 states))
        (λ _ n left. Ok states)
        lines.old lines.new result }
{
    read_end_line(lines)?;
    nothing_left(lines)
}

/// Reads this many states, and the line `end` after them.
pub(crate) fn read_states(
    alloc: Global,
    lines: &mut Lines<'_>,
    width: u32,
    nodes: u32,
    count: u32,
) -> Result<Vec<StateLine>, AnswerErr>
    requires some { 1 ≤ width }
    requires few { width ≤ 12 }
    ensures goes_on { Continues
        (states_from width nodes (behind_states count []))
        (λ states n left. Ok (map state_value states.items))
        lines.old lines.new result }
    ensures readable { IfOk result (λ states. AreReadableStates width nodes states.items) }
{
    let mut states = Vec::new(alloc);
    for _ in 0..count {
        let state = read_state(alloc, lines, width, nodes, &states)?;
        states.push(state)?;
    }
    read_end(lines)?;
    Ok(states)
}
