ghost use Rattle.std.specs.Prelude.{◌≡◌, ◌<◌, ℕ, [], All, IfOk, length};
ghost use Rattle.arc_table.specs.Incoming.{states_in, AreReverseMoves};
ghost use Rattle.arc_table.specs.States.{states_of};
ghost use Rattle.first_paths.specs.Search.{AreLengths};
ghost use Rattle.first_paths.specs.Counted.{IsLeft, Goes, IsEnd, IsSource, IsBefore, Reaches, IsSearched};

use arc_table::{Incoming, IncomingMove, Table};
use std::alloc::Global;
use tier_core::NoMemory;
use weight_law::{Count, UnitWeight};

/// How far the backward search has come: for each state how few moves are left, if that is known,
/// and the states of the last level.
#[derive(Drop)]
struct Search {
    left: Vec<Option<Count>>,
    level: Vec<u32>,
}

/// If nothing is known about a state yet, it has `n` moves left and is appended to `next`.
fn look(
    state: u32,
    n: u32,
    left: &mut Vec<Option<Count>>,
    next: &mut Vec<u32>,
) -> Result<(), NoMemory>
    requires { state < length left.old.items }
    ensures { IfOk result
        (λ _.
        Reaches
        (λ q. state ≡ q) n left.old.items left.new.items next.old.items next.new.items) }
{
    if left[state as usize].is_some() {
        return Ok(());
    }
    left[state as usize] = Some(Count(n));
    next.push(state)?;
    Ok(())
}

/// The accepting states, at which no move is left.
fn at_the_end(alloc: Global, table: &Table<UnitWeight>) -> Result<Search, NoMemory>
    ensures { IfOk result
        (λ search. IsSearched (states_of table.now) search.left.items search.level.items 0) }
{
    let mut left = vec![in alloc; None; table.len() as usize]?;
    let mut level = Vec::new(alloc);
    for state in 0..table.len() {
        if !table.accepting(state) {
            continue;
        }
        look(state, 0, &mut left, &mut level)?;
    }
    Ok(Search { left, level })
}

/// Of the states that the moves come from, those about which nothing is known have `n` moves left, and
/// are listed in `next`.
fn reach(
    moves: &[IncomingMove<UnitWeight>],
    n: u32,
    left: &mut Vec<Option<Count>>,
    next: &mut Vec<u32>,
) -> Result<(), NoMemory>
    requires { All (λ move. move.source < length left.old.items) moves.now }
    ensures { IfOk result
        (λ _.
        Reaches
        (IsSource moves.now) n left.old.items left.new.items next.old.items next.new.items) }
{
    for incoming in moves {
        look(incoming.source, n, left, next)?;
    }
    Ok(())
}

/// The next level: the states with a move to one of the last, about which nothing is
/// known.
fn next_level(
    alloc: Global,
    incoming: &Incoming<UnitWeight>,
    level: &[u32],
    n: u32,
    left: &mut Vec<Option<Count>>,
) -> Result<Vec<u32>, NoMemory>
    requires inside { All (λ state. state < states_in incoming.now) level.now }
    requires sources { (q : ℕ) → IsBefore incoming.now level.now q
        → q < length left.old.items }
    ensures { IfOk result
        (λ next.
        Reaches
        (IsBefore incoming.now level.now) n left.old.items left.new.items [] next.items) }
{
    let mut next = Vec::new(alloc);
    for state in level {
        reach(incoming.moves_to(*state), n, left, &mut next)?;
    }
    Ok(next)
}

/// For each state how few moves lead to an accepting one, by a backward breadth-first search.
fn backward_search(
    alloc: Global,
    table: &Table<UnitWeight>,
    incoming: &Incoming<UnitWeight>,
) -> Result<Vec<Option<Count>>, NoMemory>
    requires { AreReverseMoves (states_of table.now) incoming.now }
    ensures each { IfOk result (λ left. length left.items ≡ length (states_of table.now)) }
    ensures lengths { IfOk result
        (λ left.
        AreLengths
        (Goes (states_of table.now)) (IsEnd (states_of table.now)) (IsLeft left.items)) }
{
    let search = at_the_end(alloc, table)?;
    let mut left = search.left;
    let mut level = search.level;
    let mut n = 0;
    'levels: while !level.is_empty() {
        n += 1;
        level = next_level(alloc, incoming, &level, n, &mut left)?;
    }
    Ok(left)
}

/// For each state how few moves lead to an accepting one, in time linear in states and moves.
pub(crate) fn lengths(
    alloc: Global,
    table: &Table<UnitWeight>,
) -> Result<Vec<Option<Count>>, NoMemory>
    ensures each { IfOk result (λ left. length left.items ≡ length (states_of table.now)) }
    ensures lengths { IfOk result
        (λ left.
        AreLengths
        (Goes (states_of table.now)) (IsEnd (states_of table.now)) (IsLeft left.items)) }
{
    let incoming = Incoming::of_table(alloc, table)?;
    backward_search(alloc, table, &incoming)
}
