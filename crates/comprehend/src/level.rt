ghost use Rattle.std.specs.Prelude.{◌≡◌, ◌+◌, ◌*◌, ◌<◌, ◌≤◌, ℕ, [], All, IfOk, length};
ghost use Rattle.tier_core.specs.Classes.{sets_of};
ghost use Rattle.answer_text.specs.Right.{numbers_of};
ghost use Rattle.first_paths.specs.Search.{IsPredecessor};
ghost use Rattle.comprehend.specs.Searches.{no_distance, Reaches};
ghost use Rattle.comprehend.specs.Steps.{Goes, AreSearchable};
ghost use Rattle.comprehend.specs.Entering.{AreReverseArcs, IsArcOf, ComesBy, ComesByOne};

use crate::cell::cell;
use crate::entering::Entering;
use crate::look::look;
use crate::meets::meets;
use answer_text::StateLine;
use std::alloc::{AllocError, Global};
use tier_core::Class;

/// Looks at the cells from which an entering arc leads to a place.
fn reach_by(
    tests: &[Class],
    entry: &Entering,
    place: u32,
    n: u32,
    left: &mut Vec<u32>,
    next: &mut Vec<u32>,
) -> Result<(), AllocError>
    requires widths { All
        (λ test. length (sets_of test) ≡ length (sets_of entry.now.class)) tests.now }
    requires place { place < length tests.now }
    requires cells { entry.now.source * length tests.now + length tests.now
        ≤ length left.old.items }
    requires few { length left.old.items < no_distance }
    requires near { n < no_distance }
    ensures { IfOk result
        (λ _.
        Reaches
        (ComesBy tests.now entry.now.source entry.now.class place) n
        left.old.items left.new.items next.old.items next.new.items) }
{
    let places = tests.len() as u32;
    let stays = meets(&entry.class, &tests[0]);
    look(stays, cell(entry.source, place, places), n, left, next)?;
    if place == 0 {
        return Ok(());
    }
    let goes_on = meets(&entry.class, &tests[place as usize]);
    look(
        goes_on,
        cell(entry.source, place - 1, places),
        n,
        left,
        next,
    )
}

/// Looks at the cells from which the arcs that enter a state lead to a place.
fn reach(
    tests: &[Class],
    entries: &[Entering],
    place: u32,
    n: u32,
    left: &mut Vec<u32>,
    next: &mut Vec<u32>,
) -> Result<(), AllocError>
    requires widths { All
        (λ entry.
        All
        (λ test. length (sets_of test) ≡ length (sets_of entry.class)) tests.now) entries.now }
    requires place { place < length tests.now }
    requires cells { All
        (λ entry.
        entry.source * length tests.now + length tests.now
        ≤ length left.old.items) entries.now }
    requires few { length left.old.items < no_distance }
    requires near { n < no_distance }
    ensures { IfOk result
        (λ _.
        Reaches
        (ComesByOne tests.now entries.now place)
        n left.old.items left.new.items next.old.items next.new.items) }
{
    for entry in entries {
        reach_by(tests, entry, place, n, left, next)?;
    }
    Ok(())
}

/// The next level: the cells with a step to one of the last level, if nothing is known of them yet.
pub(crate) fn next_level(
    alloc: Global,
    states: &[StateLine],
    tests: &[Class],
    into: &[Vec<Entering>],
    level: &[u32],
    n: u32,
    left: &mut Vec<u32>,
) -> Result<Vec<u32>, AllocError>
    requires searchable { (width : ℕ) × AreSearchable width states.now tests.now }
    requires turned { AreReverseArcs (IsArcOf states.now) (numbers_of states.now) into.now }
    requires each { length left.old.items ≡ length states.now * length tests.now }
    requires inside { All (λ v. v < length left.old.items) level.now }
    requires near { n < no_distance }
    ensures { IfOk result
        (λ next.
        Reaches
        (IsPredecessor
        (Goes states.now tests.now) level.now) n left.old.items left.new.items [] next.items) }
{
    let places = tests.len() as u32;
    let mut next = Vec::new(alloc);
    for to in level {
        let state = *to / places;
        reach(
            tests,
            &into[state as usize],
            *to % places,
            n,
            left,
            &mut next,
        )?;
    }
    Ok(next)
}
