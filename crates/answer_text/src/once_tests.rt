use super::*;
use crate::tests::shape;
use outside::SafeSink;
use std::test::Fail;
use tier_core::{Kind, Timeline};
use weight_law::Ranked;

#[test]
fn a_node_has_a_number_for_each_constraint(rt: HostRuntime) -> Result<(), Fail> {
    let alloc = rt.alloc();
    let mut parts = [0; 24];
    parts[1] = 21;
    let kind = Kind {
        place: 0,
        opened: 1,
        unmet: 2,
        met: 1,
    };
    let potential = Ranked::of_parts(parts);
    let answer = OnceAnswer {
        form: Timeline::new(alloc),
        counts: vec![in alloc; 0, 2, 0]?,
        example: Timeline::new(alloc),
        nodes: vec![in alloc; OnceNode { kind, potential }]?,
        automaton: Automaton {
            states: Vec::new(alloc),
        },
    };
    let mut sink = SafeSink::new(alloc);
    put_once(&mut sink, &shape(alloc, &[0, 0, 1, 2])?, &answer)?;
    let text =
        b"once 1\nform empty\ncounts 0 2 0\nexample empty\nnodes 1\nnode 0/+/mu 0 21 0\nautomaton 0\nend\n";
    assert_eq!(rt; sink.bytes(), text.as_slice());
    Ok(())
}
