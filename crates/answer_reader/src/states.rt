ghost use Rattle.std.specs.Prelude.{◌≡◌, ◌<◌, ◌≤◌, length, map, true, Ok, Err, MatchResult, IfOk, OnOk};
ghost use Rattle.answer_reader.specs.Left.{Takes};
ghost use Rattle.answer_reader.specs.LineWords.{bare_state};
ghost use Rattle.answer_reader.specs.Orders.{follows, state_less};
ghost use Rattle.answer_reader.specs.States.{next_arc, next_state};
ghost use Rattle.answer_text.specs.Values.{arc_value, state_value};
ghost use Rattle.answer_text.specs.Readable.{IsReadableArc};

use crate::answer_err::{AnswerCause, AnswerErr};
use crate::line_forms::{arc_of, state_of};
use crate::lines::Lines;
use crate::on_line::on_line;
use crate::order::{arc_follows, state_follows};
use answer_text::{ArcLine, StateLine};

/// The arc on a line, after those of its state.
fn next_arc(width: u32, nodes: u32, arcs: &[ArcLine], line: &[u8]) -> Result<ArcLine, AnswerCause>
    requires some { 1 ≤ width }
    requires few { width ≤ 12 }
    ensures said { MatchResult result
        (λ arc. next_arc width nodes (map arc_value arcs.now) line.now ≡ Ok (arc_value arc))
        (λ cause. next_arc width nodes (map arc_value arcs.now) line.now ≡ Err cause) }
    ensures within { IfOk result (IsReadableArc width nodes) }
{
    let arc = arc_of(width, nodes, line)?;
    if !arc_follows(arcs, &arc) {
        return Err(AnswerCause::BadOrder);
    }
    Ok(arc)
}

/// Reads the line of an arc, after those of its state: its target is below the number of nodes, its
/// class has this width, and it comes strictly after the arc before it.
pub fn read_arc(
    lines: &mut Lines<'_>,
    width: u32,
    nodes: u32,
    arcs: &[ArcLine],
) -> Result<ArcLine, AnswerErr>
    requires some { 1 ≤ width }
    requires few { width ≤ 12 }
    ensures takes { Takes (next_arc width nodes (map arc_value arcs.now)) arc_value lines.old
        lines.new result }
    ensures within { IfOk result (IsReadableArc width nodes) }
    ensures shorter { OnOk result (length lines.new.rest.now < length lines.old.rest.now) }
{
    let number = lines.number;
    let line = lines.next_line()?;
    on_line(number, next_arc(width, nodes, arcs, line))
}

/// The state on a line, after those before it, with no arcs yet.
fn next_state(nodes: u32, states: &[StateLine], line: &[u8]) -> Result<(u32, bool), AnswerCause>
    ensures said { MatchResult result
        (λ state. next_state nodes (map state_value states.now) line.now ≡ Ok (bare_state state))
        (λ cause. next_state nodes (map state_value states.now) line.now ≡ Err cause) }
    ensures there { IfOk result (λ state. state.0 < nodes) }
    ensures follows { IfOk result (λ state. follows state_less (map state_value states.now)
        (bare_state state) ≡ true) }
{
    let (node, accepting) = state_of(nodes, line)?;
    if !state_follows(states, node, accepting) {
        return Err(AnswerCause::BadOrder);
    }
    Ok((node, accepting))
}

/// Reads the line of a state, after those before it: the number of its node, which is below the number
/// of nodes, and whether it is final. It comes strictly after the state before it.
pub fn read_state_line(
    lines: &mut Lines<'_>,
    nodes: u32,
    states: &[StateLine],
) -> Result<(u32, bool), AnswerErr>
    ensures takes { Takes (next_state nodes (map state_value states.now)) bare_state lines.old
        lines.new result }
    ensures there { IfOk result (λ state. state.0 < nodes) }
    ensures follows { IfOk result (λ state. follows state_less (map state_value states.now)
        (bare_state state) ≡ true) }
{
    let number = lines.number;
    let line = lines.next_line()?;
    on_line(number, next_state(nodes, states, line))
}
