ghost use Rattle.std.specs.Prelude.{◌≡◌, ◌≢◌, ◌*◌, ◌<◌, ◌^◌, ℕ, AllPairs, IfOk, length};
ghost use Rattle.answer_text.specs.Right.{numbers_of};
ghost use Rattle.first_paths.specs.Search.{AreLengths};
ghost use Rattle.comprehend.specs.Searches.{IsLeft, IsSearched};
ghost use Rattle.comprehend.specs.Steps.{Goes, IsEndCell, AreSearchable};
ghost use Rattle.comprehend.specs.Entering.{AreReverseArcs, IsArcOf};

use crate::cell::cell;
use crate::entering::Entering;
use crate::level::next_level;
use crate::look::{FAR, look};
use crate::turning::reverse_arcs;
use answer_text::StateLine;
use indexmap::IndexSet;
use std::alloc::{AllocError, Global};
use tier_core::Class;

/// How far the backward search has come: for each cell the least number of columns left, as far as
/// it is known, and the cells of the last level.
#[derive(Drop)]
struct Search {
    left: Vec<u32>,
    level: Vec<u32>,
}

/// The search at its start: no column is left at the cells of final states and the last place.
fn at_the_ends(alloc: Global, states: &[StateLine], tests: &[Class]) -> Result<Search, AllocError>
    requires searchable { (width : ℕ) × AreSearchable width states.now tests.now }
    ensures { IfOk result
        (λ search.
        IsSearched (Goes states.now tests.now) (IsEndCell states.now tests.now)
        (length states.now * length tests.now) search.left.items search.level.items 0) }
{
    let places = tests.len() as u32;
    let mut left = vec![in alloc; FAR; states.len() * tests.len()]?;
    let mut level = Vec::new(alloc);
    for (number, state) in states.iter().enumerate() {
        let end = cell(number as u32, places - 1, places);
        look(state.accepting, end, 0, &mut left, &mut level)?;
    }
    Ok(Search { left, level })
}

/// For each cell the least number of columns to an end, by a backward breadth-first search.
fn backward_search(
    alloc: Global,
    states: &[StateLine],
    tests: &[Class],
    into: &[Vec<Entering>],
) -> Result<Vec<u32>, AllocError>
    requires searchable { (width : ℕ) × AreSearchable width states.now tests.now }
    requires turned { AreReverseArcs (IsArcOf states.now) (numbers_of states.now) into.now }
    ensures each { IfOk result (λ left. length left.items ≡ length states.now * length tests.now) }
    ensures lengths { IfOk result
        (λ left.
        AreLengths (Goes states.now tests.now) (IsEndCell states.now tests.now) (IsLeft left.items)) }
{
    let search = at_the_ends(alloc, states, tests)?;
    let mut left = search.left;
    let mut level = search.level;
    let mut n = 0;
    'levels: while !level.is_empty() {
        n += 1;
        level = next_level(alloc, states, tests, into, &level, n, &mut left)?;
    }
    Ok(left)
}

/// For each cell the least number of columns to an end. This takes 4 bytes a cell, and looks at
/// each arc once for each place.
pub(crate) fn lengths(
    alloc: Global,
    numbers: &IndexSet<u32>,
    states: &[StateLine],
    tests: &[Class],
) -> Result<Vec<u32>, AllocError>
    requires searchable { (width : ℕ) × AreSearchable width states.now tests.now }
    requires numbers { numbers.now.keys ≡ numbers_of states.now }
    requires once { AllPairs (λ m n. m ≢ n) (numbers_of states.now) }
    ensures each { IfOk result (λ left. length left.items ≡ length states.now * length tests.now) }
    ensures lengths { IfOk result
        (λ left.
        AreLengths (Goes states.now tests.now) (IsEndCell states.now tests.now) (IsLeft left.items)) }
{
    let into = reverse_arcs(alloc, numbers, states)?;
    backward_search(alloc, states, tests, &into)
}
