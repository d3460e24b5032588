ghost use Rattle.std.specs.Prelude.{◌≡◌, map};
ghost use Rattle.std.specs.List.{flat_map};
ghost use Rattle.outside.specs.Writers.{Pushes};
ghost use Rattle.answer_text.specs.Text.{arc_line, automaton_lines, final_mark, line, lines_text, state_lines};

use crate::automaton::{ArcLine, StateLine};
use crate::class::push_class;
use outside::{OutBuffer, Sink, WriteErr, push_number};

/// The end of a state's line: ` final` if the state is final.
fn final_mark(accepting: bool) -> &'static [u8]
    ensures { result.now ≡ final_mark accepting }
{
    if accepting { b" final" } else { b"" }
}

/// Appends the line of an arc.
fn push_arc<O: Sink>(out: &mut OutBuffer, sink: &mut O, arc: &ArcLine) -> Result<(), WriteErr>
    ensures { Pushes O.Sink sink.old sink.new out.old out.new (line (arc_line arc.now)) result }
{
    push_number(out, sink, b"arc ", arc.target as usize)?;
    out.push(sink, b" ")?;
    push_class(out, sink, &arc.class)?;
    out.push(sink, b"\n")
}

/// Appends the lines of arcs.
fn push_arcs<O: Sink>(out: &mut OutBuffer, sink: &mut O, arcs: &[ArcLine]) -> Result<(), WriteErr>
    ensures { Pushes O.Sink sink.old sink.new out.old out.new
        (lines_text (map arc_line arcs.now)) result }
{
    for arc in arcs {
        push_arc(out, sink, arc)?;
    }
    Ok(())
}

/// Appends the lines of a state.
fn push_state<O: Sink>(out: &mut OutBuffer, sink: &mut O, state: &StateLine) -> Result<(), WriteErr>
    ensures { Pushes O.Sink sink.old sink.new out.old out.new
        (lines_text (state_lines state.now)) result }
{
    push_number(out, sink, b"state ", state.node as usize)?;
    out.push(sink, final_mark(state.accepting))?;
    out.push(sink, b"\n")?;
    push_arcs(out, sink, &state.arcs)
}

/// Appends the lines of states.
fn push_states<O: Sink>(
    out: &mut OutBuffer,
    sink: &mut O,
    states: &[StateLine],
) -> Result<(), WriteErr>
    ensures { Pushes O.Sink sink.old sink.new out.old out.new
        (lines_text (flat_map state_lines states.now)) result }
{
    for state in states {
        push_state(out, sink, state)?;
    }
    Ok(())
}

/// Appends the lines of an automaton with these states.
pub fn push_automaton<O: Sink>(
    out: &mut OutBuffer,
    sink: &mut O,
    states: &[StateLine],
) -> Result<(), WriteErr>
    ensures { Pushes O.Sink sink.old sink.new out.old out.new
        (lines_text (automaton_lines states.now)) result }
{
    push_number(out, sink, b"automaton ", states.len())?;
    out.push(sink, b"\n")?;
    push_states(out, sink, states)
}
