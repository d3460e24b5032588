ghost use Rattle.std.specs.Prelude.{◌≡◌, ◌≢◌, ◌*◌, ◌<◌, ℕ, AllPairs, IfOk, MatchOption, List, length, slice_get, Some};
ghost use Rattle.tier_core.specs.declared.sym.Sym.{Sym};
ghost use Rattle.tier_core.specs.Orders.{IsFirst};
ghost use Rattle.answer_text.specs.Right.{numbers_of};
ghost use Rattle.first_paths.specs.Search.{AreLengths, ReadsFrom};
ghost use Rattle.comprehend.specs.Searches.{no_distance, IsLeft};
ghost use Rattle.comprehend.specs.Steps.{Goes, IsEndCell, AreSearchable, AreApart, AreTestsApart, ReadsAlong};

use crate::cell::cell;
use crate::choose::choose;
use crate::look::FAR;
use crate::numbering::{node_numbers, place_of};
use crate::search::lengths;
use answer_text::StateLine;
use indexmap::IndexSet;
use std::alloc::Global;
use tier_core::{Class, NoMemory, Timeline};

/// The first of the timelines that lead from a cell to an end, if so many columns are left there.
fn follow(
    alloc: Global,
    numbers: &IndexSet<u32>,
    states: &[StateLine],
    tests: &[Class],
    start: u32,
    left: &[u32],
    most: u32,
) -> Result<Timeline, NoMemory>
    requires searchable { (width : ℕ) × AreSearchable width states.now tests.now }
    requires numbers { numbers.now.keys ≡ numbers_of states.now }
    requires once { AllPairs (λ m n. m ≢ n) (numbers_of states.now) }
    requires apart { AreApart states.now }
    requires tests_apart { AreTestsApart tests.now }
    requires each { length left.now ≡ length states.now * length tests.now }
    requires lengths { AreLengths (Goes states.now tests.now)
        (IsEndCell states.now tests.now) (IsLeft left.now) }
    requires start { IsLeft left.now start most }
    ensures { IfOk result
        (λ first.
        IsFirst
        (ReadsFrom (Goes states.now tests.now) (IsEndCell states.now tests.now) start) first) }
{
    let mut timeline = Timeline::new(alloc);
    let mut from = start;
    for done in 0..most {
        let choice = choose(alloc, numbers, states, tests, from, left, most - 1 - done);
        if timeline.push(choice.column).is_err() {
            return Err(NoMemory);
        }
        from = choice.cell;
    }
    Ok(timeline)
}

/// The first of the timelines that lead along the tests, from node number 0 and the first place to
/// a final state and the last place; `None` exactly if none does.
pub(crate) fn first_along(
    alloc: Global,
    states: &[StateLine],
    tests: &[Class],
) -> Result<Option<Timeline>, NoMemory>
    requires searchable { (width : ℕ) × AreSearchable width states.now tests.now }
    requires once { AllPairs (λ m n. m ≢ n) (numbers_of states.now) }
    requires apart { AreApart states.now }
    requires tests_apart { AreTestsApart tests.now }
    ensures { IfOk result (λ first.
        MatchOption first ((T : List (List Sym)) → ReadsAlong states.now tests.now T → ⊥)
        (IsFirst (ReadsAlong states.now tests.now))) }
{
    let Ok(numbers) = node_numbers(alloc, states) else {
        return Err(NoMemory);
    };
    let Some(state) = place_of(&numbers, 0) else {
        return Ok(None);
    };
    let Ok(left) = lengths(alloc, &numbers, states, tests) else {
        return Err(NoMemory);
    };
    let start = cell(state, 0, tests.len() as u32);
    let most = left[start as usize];
    if most >= FAR {
        return Ok(None);
    }
    match follow(alloc, &numbers, states, tests, start, &left, most) {
        Ok(first) => Ok(Some(first)),
        Err(cause) => Err(cause),
    }
}
