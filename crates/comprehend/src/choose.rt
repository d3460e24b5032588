ghost use Rattle.std.specs.Prelude.{◌≡◌, ◌≢◌, ◌+◌, ◌*◌, ◌<◌, ◌≤◌, ◌^◌, ℕ, All, AllPairs, None, length};
ghost use Rattle.tier_core.specs.Classes.{sets_of};
ghost use Rattle.answer_text.specs.Right.{numbers_of};
ghost use Rattle.first_paths.specs.Search.{HasStep, IsLeastStep};
ghost use Rattle.comprehend.specs.Choices.{IsBetter, LeadsAlong, LeadsByOne};
ghost use Rattle.comprehend.specs.Searches.{no_distance, IsLeft};
ghost use Rattle.comprehend.specs.Steps.{Goes, AreSearchable};

use crate::cell::cell;
use crate::choice::{Choice, better_choice};
use crate::numbering::place_of;
use answer_text::{ArcLine, StateLine};
use indexmap::IndexSet;
use std::alloc::Global;
use tier_core::Class;

/// The better of the best choice so far and the least column of an arc's class that leads from a
/// place to a cell of the target with `n` columns left.
fn along(
    alloc: Global,
    best: Option<Choice>,
    class: &Class,
    target: u32,
    tests: &[Class],
    place: u32,
    left: &[u32],
    n: u32,
) -> Option<Choice>
    requires widths { All (λ test. length (sets_of class.now) ≡ length (sets_of test)) tests.now }
    requires place { place < length tests.now }
    requires cells { target * length tests.now + length tests.now ≤ length left.now }
    requires few { length left.now < no_distance }
    requires near { n < no_distance }
    ensures { IsBetter (LeadsAlong tests.now place left.now n class.now target) best result }
{
    let places = tests.len() as u32;
    let stay = cell(target, place, places);
    let stayed = better_choice(alloc, best, class, &tests[0], stay, left, n);
    if place + 1 == places {
        return stayed;
    }
    let test = &tests[place as usize + 1];
    better_choice(alloc, stayed, class, test, stay + 1, left, n)
}

/// The best choice of the arcs, if one of them leads to a cell with `n` columns left.
fn best_of(
    alloc: Global,
    numbers: &IndexSet<u32>,
    tests: &[Class],
    arcs: &[ArcLine],
    place: u32,
    left: &[u32],
    n: u32,
) -> Option<Choice>
    requires few_numbers { length numbers.now.keys < 2 ^ 32 }
    requires once { AllPairs (λ m n. m ≢ n) numbers.now.keys }
    requires widths { All
        (λ arc.
        All (λ test. length (sets_of arc.class) ≡ length (sets_of test)) tests.now) arcs.now }
    requires place { place < length tests.now }
    requires cells { length numbers.now.keys * length tests.now ≡ length left.now }
    requires few { length left.now < no_distance }
    requires near { n < no_distance }
    ensures { IsBetter
        (LeadsByOne numbers.now.keys tests.now place left.now n arcs.now) None result }
{
    let mut best: Option<Choice> = None;
    for arc in arcs {
        let Some(target) = place_of(numbers, arc.target) else {
            continue;
        };
        best = along(alloc, best, &arc.class, target, tests, place, left, n);
    }
    best
}

/// Of the steps from a cell to one with `n` columns left, a step with the least column.
pub(crate) fn choose(
    alloc: Global,
    numbers: &IndexSet<u32>,
    states: &[StateLine],
    tests: &[Class],
    from: u32,
    left: &[u32],
    n: u32,
) -> Choice
    requires searchable { (width : ℕ) × AreSearchable width states.now tests.now }
    requires numbers { numbers.now.keys ≡ numbers_of states.now }
    requires once { AllPairs (λ m n. m ≢ n) (numbers_of states.now) }
    requires each { length left.now ≡ length states.now * length tests.now }
    requires from { from < length left.now }
    requires near { n < no_distance }
    requires some { HasStep (Goes states.now tests.now) (IsLeft left.now) from n }
    ensures { IsLeastStep (Goes states.now tests.now) (IsLeft left.now)
        from n result.column result.cell }
{
    let places = tests.len() as u32;
    let state = from / places;
    let place = from % places;
    let arcs = &states[state as usize].arcs;
    match best_of(alloc, numbers, tests, arcs, place, left, n) {
        Some(choice) => choice,
        None => unreachable!(),
    }
}
