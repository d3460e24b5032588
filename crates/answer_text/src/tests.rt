ghost use Rattle.std.specs.Prelude.{◌≡◌, ◌≤◌, ◌∷◌, [], ◌++◌, List, true, false, codes, length, bit_and, IfOk};
ghost use Rattle.tier_core.specs.declared.sym.Sym.{Sym};
ghost use Rattle.tier_core.specs.Classes.{sets_of};
ghost use Rattle.tier_core.specs.Kinds.{closed, unmet, met, PrefixKind, prefix_kind};
ghost use Rattle.tier_core.specs.Sets.{single_set};
ghost use Rattle.tier_core.specs.Shapes.{NeverFalls};
ghost use Rattle.answer_text.specs.declared.automaton.ArcLine.{ArcLine};
ghost use Rattle.answer_text.specs.declared.automaton.StateLine.{StateLine};
ghost use Rattle.answer_text.specs.declared.stage.Node.{Node};
ghost use Rattle.answer_text.specs.Acceptance.{Accepts};
ghost use Rattle.answer_text.specs.Text.{arc_line, counts_line, node_line, stage_lines, state_lines};
ghost use Rattle.timeline_text.specs.Texts.{text_of};

use super::*;
use outside::{MemSink, SafeSink, WriteErr};
use std::alloc::{AllocError, Global};
use std::test::Fail;
use tier_core::{Class, Column, Kind, Shape, Sym, Timeline};

// The texts of single lines, which are proved.
fn lines()
    ensures node { (node : Node)
        → prefix_kind 1 1 node.kind
        ≡ record { place = 0; opened = false ∷ []; phases = closed ∷ [] } → node.potential ≡ 1
        → node_line 1 1 node ≡ codes "node 0/-/. 1" }
    ensures phases { (node : Node)
        → prefix_kind 2 3 node.kind
        ≡ record { place = 17; opened = true ∷ false ∷ []; phases = met ∷ closed ∷ unmet ∷ [] }
        → node.potential ≡ 20 → node_line 2 3 node ≡ codes "node 17/+-/m.u 20" }
    ensures stage { stage_lines 1 1 12 [] ≡ codes "stage 12 0" ∷ [] }
    ensures arc { (arc : ArcLine) → arc.target ≡ 1 → sets_of arc.class ≡ 3 ∷ 4 ∷ 31 ∷ []
        → arc_line arc ≡ codes "arc 1 {-+}[{-+[]|}" }
    ensures state { (state : StateLine) → state.node ≡ 2 → state.accepting ≡ true
        → state.arcs.items ≡ [] → state_lines state ≡ codes "state 2 final" ∷ [] }
    ensures other { (state : StateLine) → state.node ≡ 10 → state.accepting ≡ false
        → state.arcs.items ≡ [] → state_lines state ≡ codes "state 10" ∷ [] }
    ensures none { counts_line [] ≡ codes "counts" }
    ensures some { counts_line (0 ∷ 21 ∷ 0 ∷ []) ≡ codes "counts 0 21 0" }
    ensures empty { text_of [] ≡ codes "empty" }
    ensures columns { text_of ((Sym.Start ∷ Sym.Outside ∷ []) ∷ (Sym.Both ∷ Sym.End ∷ []) ∷ [])
        ≡ codes "[- |]" }
{}

#[test]
fn lines_are_written_so() {
    lines();
}

// A node whose phases are closed or unmet.
fn node(place: u32, opened: u16, unmet: u32, potential: u32) -> Node {
    let kind = Kind {
        place,
        opened,
        unmet,
        met: 0,
    };
    Node { kind, potential }
}

fn stage(alloc: Global, nodes: &[Node]) -> Result<Stage, AllocError> {
    let nodes = Vec::from_slice(alloc, nodes)?;
    Ok(Stage { nodes })
}

// An arc of a single column over two tiers.
fn arc(alloc: Global, target: u32, first: Sym, second: Sym) -> ArcLine
    ensures target { result.target ≡ target }
    ensures class { sets_of result.class ≡ single_set first ∷ single_set second ∷ [] }
{
    let class = Class::single(&Column::from_syms(alloc, &[first, second]));
    ArcLine { target, class }
}

fn state(
    alloc: Global,
    node: u32,
    accepting: bool,
    arcs: &[ArcLine],
) -> Result<StateLine, AllocError>
    ensures node { IfOk result (λ s. s.node ≡ node) }
    ensures accepting { IfOk result (λ s. s.accepting ≡ accepting) }
    ensures arcs { IfOk result (λ s. s.arcs.items ≡ arcs.now) }
{
    let arcs = Vec::from_slice(alloc, arcs)?;
    Ok(StateLine {
        node,
        accepting,
        arcs,
    })
}

// Any number of constituents of the second tier, one after the other, and none of the first.
fn two_states(alloc: Global) -> Result<Automaton, AllocError>
    ensures empty { IfOk result (λ a. Accepts a.states.items []) }
    ensures one { IfOk result
        (λ a.
        Accepts a.states.items
        ((Sym.Outside ∷ Sym.Start ∷ []) ∷ (Sym.Outside ∷ Sym.End ∷ []) ∷ [])) }
    ensures open { IfOk result
        (λ a. Accepts a.states.items ((Sym.Outside ∷ Sym.Start ∷ []) ∷ []) → ⊥) }
{
    let opens = arc(alloc, 1, Sym::Outside, Sym::Start);
    let closes = arc(alloc, 0, Sym::Outside, Sym::End);
    let turns = arc(alloc, 1, Sym::Outside, Sym::Both);
    let start = state(alloc, 0, true, &[opens])?;
    let inside = state(alloc, 1, false, &[closes, turns])?;
    let mut states = Vec::new(alloc);
    states.push(start)?;
    states.push(inside)?;
    Ok(Automaton { states })
}

// The shape of two tiers, an input tier and then a free one.
pub(super) fn shape(alloc: Global, phases: &[u32]) -> Result<Shape, AllocError>
    requires some { 1 ≤ length phases.now }
    requires few { length phases.now ≤ 25 }
    requires rising { NeverFalls phases.now }
    ensures { IfOk result (λ s. s.phases.items ≡ phases.now) }
{
    let phases = Vec::from_slice(alloc, phases)?;
    Ok(Shape {
        width: 2,
        inputs: 1,
        phases,
    })
}

const OPTIMAL_SET_IS_INFINITE: &[u8] = b"answer 1
form empty
counts
example empty
stage 0 2
node 0/-/ 0
node 0/+/ 0
automaton 2
state 0 final
arc 1 -[
state 1
arc 0 -]
arc 1 -|
end
";

// The answer without constraints: any number of constituents of the free tier is optimal.
fn any_number(alloc: Global) -> Result<Answer, AllocError>
    ensures { IfOk result (λ answer. length answer.stages.items ≡ 1) }
{
    Ok(Answer {
        form: Timeline::new(alloc),
        counts: Vec::new(alloc),
        example: Timeline::new(alloc),
        stages: vec![in alloc; stage(alloc, &[node(0, 0, 0, 0), node(0, 1, 0, 0)])?]?,
        automaton: two_states(alloc)?,
    })
}

#[test]
fn optimal_set_is_infinite(rt: HostRuntime) -> Result<(), Fail> {
    let alloc = rt.alloc();
    let mut sink = SafeSink::new(alloc);
    let shape = shape(alloc, &[0])?;
    let answer = any_number(alloc)?;
    put_answer(&mut sink, &shape, &answer)?;
    assert_eq!(rt; sink.bytes(), OPTIMAL_SET_IS_INFINITE);
    Ok(())
}

// A sink that takes 16 bytes a write, and whose third write fails, takes a prefix of the text.
#[test]
fn a_failing_write_leaves_a_front(rt: HostRuntime) -> Result<(), Fail> {
    let alloc = rt.alloc();
    let shape = shape(alloc, &[0])?;
    let answer = any_number(alloc)?;
    let mut sink = MemSink::new(alloc, 16, vec![in alloc; 3]?);
    assert_eq!(rt;
        put_answer(&mut sink, &shape, &answer),
        Err(WriteErr::Failed)
    );
    assert_eq!(rt; sink.bytes(), &OPTIMAL_SET_IS_INFINITE[..32]);
    Ok(())
}

// Stages of no node, one and two; the last two are stretch implications.
fn four_stages(alloc: Global) -> Result<Vec<Stage>, AllocError>
    ensures { IfOk result (λ stages. length stages.items ≡ 4) }
{
    let stages = vec![in alloc;
        stage(alloc, &[node(0, 1, 0, 0)])?,
        stage(alloc, &[])?,
        stage(alloc, &[node(1, 0, 1, 1)])?,
        stage(alloc, &[node(0, 0, 0, 0), node(2, 0, 1, 20)])?,
    ]?;
    Ok(stages)
}

// A constituent of the first tier, and nothing of the second.
fn three_states(alloc: Global) -> Result<Automaton, AllocError> {
    let starts = arc(alloc, 1, Sym::Start, Sym::Outside);
    let ends = arc(alloc, 2, Sym::End, Sym::Outside);
    let states = vec![in alloc;
        state(alloc, 0, false, &[starts])?,
        state(alloc, 1, false, &[ends])?,
        state(alloc, 2, true, &[])?,
    ]?;
    Ok(Automaton { states })
}

// A timeline of two columns; if memory runs out it has fewer.
fn two_columns(alloc: Global, first: &[Sym], second: &[Sym]) -> Timeline
    requires some { (1 ≤ length first.now) × (1 ≤ length second.now) }
    requires few { (length first.now ≤ 12) × (length second.now ≤ 12) }
{
    let mut timeline = Timeline::new(alloc);
    let _ = timeline.push(Column::from_syms(alloc, first));
    let _ = timeline.push(Column::from_syms(alloc, second));
    timeline
}

const STAGES_AND_STATES: &[u8] = b"answer 1
form [ ]
counts 0 1 0
example [- ]-
stage 0 1
node 0/+/ 0
stage 1 0
stage 2 1
node 1/-/u 1
stage 3 2
node 0/-/.. 0
node 2/-/u. 20
automaton 3
state 0
arc 1 [-
state 1
arc 2 ]-
state 2 final
end
";

#[test]
fn stages_and_states_are_written(rt: HostRuntime) -> Result<(), Fail> {
    let alloc = rt.alloc();
    let shape = shape(alloc, &[0, 0, 1, 2])?;
    let answer = Answer {
        form: two_columns(alloc, &[Sym::Start], &[Sym::End]),
        counts: vec![in alloc; 0, 1, 0]?,
        example: two_columns(
            alloc,
            &[Sym::Start, Sym::Outside],
            &[Sym::End, Sym::Outside],
        ),
        stages: four_stages(alloc)?,
        automaton: three_states(alloc)?,
    };
    let mut sink = SafeSink::new(alloc);
    put_answer(&mut sink, &shape, &answer)?;
    assert_eq!(rt; sink.bytes(), STAGES_AND_STATES);
    Ok(())
}

#[test]
fn counts_are_written_alone(rt: HostRuntime) -> Result<(), Fail> {
    let alloc = rt.alloc();
    let cases = [
        (Vec::new(alloc), "counts\n"),
        (vec![in alloc; 0]?, "counts 0\n"),
        (vec![in alloc; 0, 1]?, "counts 0 1\n"),
        (vec![in alloc; 12, 0, 12]?, "counts 12 0 12\n"),
        (vec![in alloc; 4_294_967_295]?, "counts 4294967295\n"),
    ];
    for (counts, text) in cases {
        let mut sink = SafeSink::new(alloc);
        put_counts(&mut sink, &counts)?;
        assert_eq!(rt; sink.bytes(), text.as_bytes());
    }
    Ok(())
}

// An answer of which only the counts and the example are written.
fn counts_only(alloc: Global, counts: Vec<u32>, form: Timeline, example: Timeline) -> Answer {
    Answer {
        form,
        counts,
        example,
        stages: Vec::new(alloc),
        automaton: Automaton {
            states: Vec::new(alloc),
        },
    }
}

#[test]
fn counts_and_example_are_written(rt: HostRuntime) -> Result<(), Fail> {
    let alloc = rt.alloc();
    let none = counts_only(
        alloc,
        Vec::new(alloc),
        Timeline::new(alloc),
        Timeline::new(alloc),
    );
    let open = counts_only(
        alloc,
        vec![in alloc; 7]?,
        Timeline::new(alloc),
        two_columns(alloc, &[Sym::Start], &[Sym::End]),
    );
    let one = counts_only(
        alloc,
        vec![in alloc; 0, 1, 0]?,
        two_columns(alloc, &[Sym::Start], &[Sym::End]),
        two_columns(alloc, &[Sym::Start, Sym::Outside], &[Sym::End, Sym::Inside]),
    );
    let cases = [
        (none, "counts\nexample empty\n"),
        (open, "counts 7\nexample [ ]\n"),
        (one, "counts 0 1 0\nexample [- ]+\n"),
    ];
    for (answer, text) in cases {
        let mut sink = SafeSink::new(alloc);
        put_shown(&mut sink, &answer)?;
        assert_eq!(rt; sink.bytes(), text.as_bytes());
    }
    Ok(())
}
