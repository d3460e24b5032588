ghost use Rattle.std.specs.Prelude.{◌≤◌};
ghost use Rattle.arc_table.specs.States.{states_of};

use crate::{Arrow, small_table};
use arc_table::{Incoming, Table, TableState};
use distances::to_final;
use first_paths::first;
use prune_best::tight;
use std::alloc::{AllocError, Global};
use std::test::Fail;
use tier_core::{Sym, Timeline};
use weight_law::{UnitWeight, Weight};

/// The longest word that is read, in symbols.
const LONGEST: u32 = 5;

const SYMBOLS: [Sym; 5] = [Sym::Outside, Sym::Inside, Sym::Start, Sym::End, Sym::Both];

#[derive(Clone, Copy)]
struct Graph<'a> {
    name: &'a str,
    accepting: &'a [bool],
    arrows: &'a [Arrow],
}

fn arrow(from: u32, to: u32, set: u8, weight: u32) -> Arrow {
    Arrow {
        from,
        to,
        set,
        weight,
    }
}

/// The word of so many symbols that comes after `code` others of as many.
fn word(len: u32, code: u32) -> [u8; 5]
    requires { len ≤ 5 }
{
    let mut letters = [0; 5];
    let mut rest = code;
    for done in 0..len {
        letters[(len - 1 - done) as usize] = (rest % 5) as u8;
        rest /= 5;
    }
    letters
}

/// How many words have so many symbols.
fn words(len: u32) -> u32 {
    let mut count: u32 = 1;
    for _letter in 0..len {
        count = count.saturating_mul(5);
    }
    count
}

fn has(set: u8, letter: u8) -> bool {
    match letter {
        0 => set % 2 == 1,
        1 => (set / 2) % 2 == 1,
        2 => (set / 4) % 2 == 1,
        3 => (set / 8) % 2 == 1,
        _ => (set / 16) % 2 == 1,
    }
}

fn follow(arrows: &[Arrow], state: u32, letter: u8) -> Option<Arrow> {
    for arrow in arrows {
        if arrow.from == state && has(arrow.set, letter) {
            return Some(*arrow);
        }
    }
    None
}

/// The weight of a word from a state on, if it is accepted.
fn weight_of(graph: &Graph, from: u32, letters: &[u8]) -> Option<u64> {
    let mut state = from;
    let mut weight: u64 = 0;
    for letter in letters {
        let arrow = follow(graph.arrows, state, *letter)?;
        weight = weight.saturating_add(u64::from(arrow.weight));
        state = arrow.to;
    }
    if graph.accepting.get(state as usize) == Some(&true) {
        Some(weight)
    } else {
        None
    }
}

/// The least weight of a word from a state on.
fn least_of(graph: &Graph, from: u32) -> Option<u64> {
    let mut least = None;
    for len in 0..LONGEST + 1 {
        for code in 0..words(len) {
            let letters = word(len, code);
            let found = weight_of(graph, from, &letters[..len as usize]);
            least = match (least, found) {
                (Some(a), Some(b)) => Some(if b < a { b } else { a }),
                (None, found) => found,
                (least, None) => least,
            };
        }
    }
    least
}

fn accepts(table: &Table<UnitWeight>, letters: &[u8]) -> bool {
    let mut state = 0;
    for letter in letters {
        if state >= table.len() {
            return false;
        }
        let mut next = None;
        for arc in table.arcs(state) {
            if arc.class.width() == 1 && has(arc.class.bits(0), *letter) {
                next = Some(arc.target);
            }
        }
        match next {
            Some(target) => state = target,
            None => return false,
        }
    }
    state < table.len() && table.accepting(state)
}

/// The first word of a weight, in the order of timelines: its number of symbols, and its code.
fn first_of(graph: &Graph, weight: u64) -> Option<(u32, u32)> {
    for len in 0..LONGEST + 1 {
        for code in 0..words(len) {
            let letters = word(len, code);
            if weight_of(graph, 0, &letters[..len as usize]) == Some(weight) {
                return Some((len, code));
            }
        }
    }
    None
}

/// Whether the pruned table accepts exactly the short words of a weight.
fn accepts_exactly(table: &Table<UnitWeight>, graph: &Graph, weight: u64) -> bool {
    for len in 0..LONGEST + 1 {
        for code in 0..words(len) {
            let letters = word(len, code);
            let letters = &letters[..len as usize];
            if accepts(table, letters) != (weight_of(graph, 0, letters) == Some(weight)) {
                return false;
            }
        }
    }
    true
}

/// Whether the timeline is the word of so many symbols with this code.
fn is_word(timeline: &Timeline, len: u32, code: u32) -> bool {
    if len > LONGEST || timeline.len() != len as usize {
        return false;
    }
    let letters = word(len, code);
    for place in 0..timeline.len() {
        let letter = letters[place] as usize;
        if timeline.column(place).syms().first() != SYMBOLS.get(letter) {
            return false;
        }
    }
    true
}

/// What the three functions return for a graph: the least weights, and, if the start has one,
/// whether the pruned table and the first timeline are right.
fn check(alloc: Global, graph: &Graph) -> Result<bool, Fail> {
    let Some(table) = small_table(alloc, graph.accepting, graph.arrows)? else {
        return Ok(false);
    };
    let least = to_final(alloc, &table)?;
    for state in 0..least.len() {
        if least[state].map(|count| u64::from(count.0)) != least_of(graph, state as u32) {
            return Ok(false);
        }
    }
    let Some(weight) = least[0] else {
        return Ok(true);
    };
    let weight = u64::from(weight.0);
    let pruned = tight(alloc, &table, &least)?;
    let example = first(alloc, &pruned.table)?;
    let right = match (example, first_of(graph, weight)) {
        (Some(timeline), Some((len, code))) => is_word(&timeline, len, code),
        _ => false,
    };
    Ok(right && accepts_exactly(&pruned.table, graph, weight))
}

// Each state has one move at most.
#[test]
fn chains(rt: HostRuntime) -> Result<(), Fail> {
    let graphs = [
        Graph {
            name: "one accepting state",
            accepting: &[true],
            arrows: &[],
        },
        Graph {
            name: "no accepting state",
            accepting: &[false, false],
            arrows: &[arrow(0, 1, 1, 1)],
        },
        Graph {
            name: "a chain",
            accepting: &[false, false, true],
            arrows: &[arrow(0, 1, 1, 2), arrow(1, 2, 2, 3)],
        },
        Graph {
            name: "a chain back",
            accepting: &[false, true, false, false],
            arrows: &[arrow(0, 3, 1, 1), arrow(3, 2, 1, 1), arrow(2, 1, 1, 1)],
        },
        Graph {
            name: "an accepting start",
            accepting: &[true, true],
            arrows: &[arrow(0, 1, 1, 0)],
        },
    ];
    for graph in &graphs {
        assert!(rt; check(rt.alloc(), graph)?, "{}", graph.name);
    }
    Ok(())
}

// Of several paths the one that weighs least is taken, and of equal ones all.
#[test]
fn several_paths(rt: HostRuntime) -> Result<(), Fail> {
    let graphs = [
        Graph {
            name: "two least paths",
            accepting: &[false, false, false, true],
            arrows: &[
                arrow(0, 2, 2, 1),
                arrow(0, 1, 1, 1),
                arrow(1, 3, 4, 1),
                arrow(2, 3, 1, 1),
            ],
        },
        Graph {
            name: "a longer path weighs less",
            accepting: &[false, false, true],
            arrows: &[arrow(0, 2, 1, 5), arrow(0, 1, 2, 1), arrow(1, 2, 1, 1)],
        },
        Graph {
            name: "an accepting state on the way",
            accepting: &[false, true, true],
            arrows: &[arrow(0, 1, 1, 2), arrow(1, 2, 2, 0), arrow(0, 2, 4, 2)],
        },
        Graph {
            name: "great weights",
            accepting: &[false, false, true],
            arrows: &[arrow(0, 1, 1, 1_400_000_000), arrow(1, 2, 2, 1_400_000_000)],
        },
    ];
    for graph in &graphs {
        assert!(rt; check(rt.alloc(), graph)?, "{}", graph.name);
    }
    Ok(())
}

// Going round adds nothing or something, and never helps.
#[test]
fn cycles(rt: HostRuntime) -> Result<(), Fail> {
    let graphs = [
        Graph {
            name: "a cycle of weight 0",
            accepting: &[false, false, true],
            arrows: &[arrow(0, 1, 1, 0), arrow(1, 0, 2, 0), arrow(1, 2, 1, 1)],
        },
        Graph {
            name: "a self loop of weight 0",
            accepting: &[false, true],
            arrows: &[arrow(0, 0, 1, 0), arrow(0, 1, 2, 0)],
        },
        Graph {
            name: "self loops with weight",
            accepting: &[false, true],
            arrows: &[arrow(0, 0, 1, 1), arrow(0, 1, 2, 1), arrow(1, 1, 4, 3)],
        },
    ];
    for graph in &graphs {
        assert!(rt; check(rt.alloc(), graph)?, "{}", graph.name);
    }
    Ok(())
}

// States that lie on no path, and classes of many columns.
#[test]
fn states_left_out(rt: HostRuntime) -> Result<(), Fail> {
    let graphs = [
        Graph {
            name: "a state that is not reached",
            accepting: &[false, true, false],
            arrows: &[arrow(0, 1, 1, 1), arrow(2, 1, 1, 0)],
        },
        Graph {
            name: "a dead end",
            accepting: &[false, false, true],
            arrows: &[arrow(0, 1, 1, 0), arrow(0, 2, 2, 4)],
        },
        Graph {
            name: "classes of many columns",
            accepting: &[false, false, true],
            arrows: &[
                arrow(0, 1, 7, 1),
                arrow(0, 2, 24, 3),
                arrow(1, 2, 21, 2),
                arrow(1, 1, 10, 0),
            ],
        },
    ];
    for graph in &graphs {
        assert!(rt; check(rt.alloc(), graph)?, "{}", graph.name);
    }
    Ok(())
}

/// How many arrows lead from one state to another with a weight.
fn arrows_between(graph: &Graph, from: u32, to: u32, weight: u32) -> usize {
    graph
        .arrows
        .iter()
        .filter(|arrow| arrow.from == from && arrow.to == to && arrow.weight == weight)
        .count()
}

/// Whether the reversed moves are the graph's arrows, each as often as it occurs there.
fn are_turned(alloc: Global, graph: &Graph) -> Result<bool, Fail> {
    let Some(table) = small_table(alloc, graph.accepting, graph.arrows)? else {
        return Ok(false);
    };
    let incoming = Incoming::of_table(alloc, &table)?;
    let mut moves: usize = 0;
    for state in 0..table.len() {
        for one in incoming.moves_to(state) {
            let there = incoming
                .moves_to(state)
                .iter()
                .filter(|other| other.source == one.source && other.weight.0 == one.weight.0)
                .count();
            if there != arrows_between(graph, one.source, state, one.weight.0) {
                return Ok(false);
            }
            moves = moves.saturating_add(1);
        }
    }
    Ok(moves == graph.arrows.len())
}

#[test]
fn moves_are_turned_round_once_each(rt: HostRuntime) -> Result<(), Fail> {
    let graphs = [
        Graph {
            name: "no move",
            accepting: &[true, false],
            arrows: &[],
        },
        Graph {
            name: "several moves between two states",
            accepting: &[false, false, true],
            arrows: &[
                arrow(0, 2, 1, 3),
                arrow(0, 2, 2, 3),
                arrow(0, 2, 4, 1),
                arrow(2, 0, 1, 0),
            ],
        },
        Graph {
            name: "self loops, and the last state a target",
            accepting: &[false, false, true],
            arrows: &[
                arrow(0, 0, 1, 1),
                arrow(2, 2, 1, 1),
                arrow(1, 2, 8, 4),
                arrow(2, 0, 16, 4),
            ],
        },
    ];
    for graph in &graphs {
        assert!(rt; are_turned(rt.alloc(), graph)?, "{}", graph.name);
    }
    Ok(())
}

#[test]
fn nothing_is_first_where_nothing_is_accepted(rt: HostRuntime) -> Result<(), Fail> {
    let mut states = Vec::new(rt.alloc());
    states.push(TableState {
        accepting: false,
        arcs: Vec::new(rt.alloc()),
    })?;
    let table = Table::of_states(states);
    assert!(rt; first(rt.alloc(), &table)?.is_none());
    Ok(())
}
