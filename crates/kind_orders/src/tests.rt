ghost use Rattle.std.specs.Prelude.{◌≡◌, ◌≢◌, ◌<◌, ◌≤◌, ◌++◌, All, IfOk, length};
ghost use Rattle.arc_table.specs.States.{states_of};
ghost use Rattle.tier_core.specs.KindShapes.{free_count};
ghost use Rattle.tier_core.specs.Shapes.{NeverFalls};
ghost use Rattle.tier_core.specs.Classes.{sets_of};
ghost use Rattle.symbol_class.specs.Held.{ArePieces};

use super::*;
use crate::joined_arcs::{joined_lines, push_arcs};
use answer_text::{ArcLine, Automaton, Stage};
use arc_table::{Table, TableState};
use std::alloc::{AllocError, Global};
use std::test::Fail;
use symbol_class::split;
use tier_core::{Class, Column, Kind, NoMemory, Shape, Sym};
use weight_law::UnitWeight;

// The kind of a place and a mask of open tiers, with all stretch implications closed.
fn kind(place: u32, opened: u16) -> Kind
    ensures place { result.place ≡ place }
    ensures opened { result.opened ≡ opened }
    ensures unmet { result.unmet ≡ 0 }
    ensures met { result.met ≡ 0 }
{
    Kind {
        place,
        opened,
        unmet: 0,
        met: 0,
    }
}

// The shape of two tiers, an input tier and then a free one.
fn shape(alloc: Global, phases: &[u32]) -> Result<Shape, AllocError>
    requires some { 1 ≤ length phases.now }
    requires few { length phases.now ≤ 25 }
    requires rising { NeverFalls phases.now }
    ensures stages { IfOk result (λ s. s.phases.items ≡ phases.now) }
    ensures free { IfOk result (λ s. free_count s ≡ 1) }
{
    let phases = Vec::from_slice(alloc, phases)?;
    Ok(Shape {
        width: 2,
        inputs: 1,
        phases,
    })
}

// One state without moves.
fn one_state(alloc: Global) -> Result<Table<UnitWeight>, AllocError>
    ensures { IfOk result (λ t. length (states_of t) ≡ 1) }
{
    let mut states = Vec::new(alloc);
    states.push(TableState {
        accepting: true,
        arcs: Vec::new(alloc),
    })?;
    Ok(Table::of_states(states))
}

#[derive(Drop)]
struct Made {
    order: Vec<u32>,
    ranks: Vec<u32>,
    stage: Stage,
    automaton: Automaton,
}

// What is made of three kinds of different places, if a table's one state stands for the second.
fn made_of(
    alloc: Global,
    shape: &Shape,
    kept: &Table<UnitWeight>,
    a: Kind,
    b: Kind,
    c: Kind,
) -> Result<Made, NoMemory>
    requires stages { length shape.now.phases.items ≡ 1 }
    requires free { free_count shape.now ≡ 1 }
    requires states { length (states_of kept.now) ≡ 1 }
    requires opened { (a.opened < 2) × (b.opened < 2) × (c.opened < 2) }
    requires unmet { (a.unmet ≡ 0) × (b.unmet ≡ 0) × (c.unmet ≡ 0) }
    requires met { (a.met ≡ 0) × (b.met ≡ 0) × (c.met ≡ 0) }
    requires places { (a.place ≢ b.place) × (a.place ≢ c.place) × (b.place ≢ c.place) }
{
    let kinds = [a, b, c];
    let order = order_of_kinds(alloc, shape, 0, &kinds)?;
    let ranks = ranks(alloc, &order)?;
    let stage = stage_of(alloc, &kinds, &[4, 5, 6], &order)?;
    let automaton = automaton_of(alloc, kept, &[1], &ranks)?;
    Ok(Made {
        order,
        ranks,
        stage,
        automaton,
    })
}

#[test]
fn kinds_are_put_in_order(rt: HostRuntime) -> Result<(), Fail> {
    let alloc = rt.alloc();
    let shape = shape(alloc, &[0])?;
    let kept = one_state(alloc)?;
    let made = made_of(alloc, &shape, &kept, kind(2, 0), kind(0, 1), kind(1, 0))?;
    assert_eq!(rt; made.order.as_slice(), [1, 2, 0].as_slice());
    assert_eq!(rt; made.ranks.as_slice(), [2, 0, 1].as_slice());
    let mut nodes = Vec::new(alloc);
    for node in &made.stage.nodes {
        nodes.push((node.kind.place, node.potential))?;
    }
    assert_eq!(rt; nodes.as_slice(), [(0, 5), (1, 6), (2, 4)].as_slice());
    let mut states = Vec::new(alloc);
    for state in &made.automaton.states {
        states.push((state.node, state.accepting, state.arcs.len()))?;
    }
    assert_eq!(rt; states.as_slice(), [(0, true, 0)].as_slice());
    Ok(())
}

// The column of one cell of a square of Outside, Start and Both by Outside, Start and Both.
fn cell(alloc: Global, code: u32) -> Column
    requires { code < 9 }
    ensures { length result ≡ 2 }
{
    let symbols = [Sym::Outside, Sym::Start, Sym::Both];
    let first = symbols[(code / 3) as usize];
    let second = symbols[(code % 3) as usize];
    Column::from_syms(alloc, &[first, second])
}

fn has_bit(mask: u32, code: u32) -> bool
    requires { code < 9 }
{
    (mask >> code) & 1 == 1
}

// The cells that a mask names, one class each.
fn cells(alloc: Global, mask: u32) -> Result<Vec<Class>, AllocError>
    ensures { IfOk result (λ cells. All (λ class. length (sets_of class) ≡ 2) cells.items) }
{
    let mut cells = Vec::new(alloc);
    for code in 0..9 {
        if has_bit(mask, code) {
            cells.push(Class::single(&cell(alloc, code)))?;
        }
    }
    Ok(cells)
}

// The arcs to 3 on some classes, and to 5 on others, joined.
fn joined(alloc: Global, some: &[Class], others: &[Class]) -> Result<Vec<ArcLine>, AllocError>
    requires { ArePieces 2 (some.now ++ others.now) }
{
    let mut lines = Vec::new(alloc);
    push_arcs(&mut lines, 3, some)?;
    push_arcs(&mut lines, 5, others)?;
    joined_lines(alloc, &lines)
}

// The arcs to 3 on the cells that a mask names, and to 5 on the others, joined.
fn joined_cells(alloc: Global, mask: u32) -> Result<Vec<ArcLine>, Fail> {
    let cells = cells(alloc, mask)?;
    let parts = split(alloc, &Class::of_bits(&[21, 21]), &cells)?;
    Ok(joined(alloc, &parts.inside, &parts.outside)?)
}

fn count_to(arcs: &[ArcLine], target: u32) -> usize {
    arcs.iter().filter(|arc| arc.target == target).count()
}

fn times_to(arcs: &[ArcLine], target: u32, column: &Column) -> usize {
    arcs.iter()
        .filter(|arc| arc.target == target && arc.class.has(column))
        .count()
}

#[test]
fn arcs_are_joined(rt: HostRuntime) -> Result<(), Fail> {
    // the whole square, a row, a row and a cell, the diagonal, nothing
    let cases = [
        (0b111_111_111, 1, 0),
        (0b000_111_000, 1, 1),
        (0b000_111_001, 2, 2),
        (0b100_010_001, 3, 3),
        (0b000_000_000, 0, 1),
    ];
    for (mask, some, others) in cases {
        let arcs = joined_cells(rt.alloc(), mask)?;
        let counts = (count_to(&arcs, 3), count_to(&arcs, 5));
        assert_eq!(rt; counts, (some, others), "at {mask}");
        for code in 0..9 {
            let column = cell(rt.alloc(), code);
            let named = usize::from(has_bit(mask, code));
            let times = (times_to(&arcs, 3, &column), times_to(&arcs, 5, &column));
            assert_eq!(rt; times, (named, 1 - named), "at {mask}");
        }
    }
    Ok(())
}
