ghost use Rattle.std.specs.Prelude.{◌≡◌, ◌≢◌, ◌+◌, ◌<◌, ◌≤◌, ◌^◌, IfOk, AllPairs, All, Contains, length};
ghost use Rattle.answer_text.specs.Right.{numbers_of};
ghost use Rattle.comprehend.specs.Entering.{AreReverseArcs, IsArcBelow, IsArcOf, AreNotEntered};

use crate::entering::Entering;
use crate::numbering::place_of;
use answer_text::StateLine;
use indexmap::IndexSet;
use std::alloc::{AllocError, Global};

/// So many states, none of which an arc enters.
fn not_entered(alloc: Global, count: usize) -> Result<Vec<Vec<Entering>>, AllocError>
    ensures { IfOk result (λ into. AreNotEntered count into.items) }
{
    let mut into = Vec::with_capacity(alloc, count)?;
    for _state in 0..count {
        into.push(Vec::new(alloc))?;
    }
    Ok(into)
}

/// Reverses the arcs of one state.
fn turn_arcs(
    numbers: &IndexSet<u32>,
    states: &[StateLine],
    source: u32,
    into: &mut Vec<Vec<Entering>>,
) -> Result<(), AllocError>
    requires source { source < length states.now }
    requires numbers { numbers.now.keys ≡ numbers_of states.now }
    requires few { length states.now < 2 ^ 32 }
    requires once { AllPairs (λ m n. m ≢ n) (numbers_of states.now) }
    requires turned { AreReverseArcs (IsArcBelow states.now source)
        (numbers_of states.now) into.old.items }
    ensures { IfOk result
        (λ _.
        AreReverseArcs (IsArcBelow states.now (source + 1))
        (numbers_of states.now) into.new.items) }
{
    for arc in &states[source as usize].arcs {
        let Some(target) = place_of(numbers, arc.target) else {
            continue;
        };
        into[target as usize].push(Entering {
            source,
            class: arc.class,
        })?;
    }
    Ok(())
}

/// For each state the arcs that enter it.
pub(crate) fn reverse_arcs(
    alloc: Global,
    numbers: &IndexSet<u32>,
    states: &[StateLine],
) -> Result<Vec<Vec<Entering>>, AllocError>
    requires numbers { numbers.now.keys ≡ numbers_of states.now }
    requires few { length states.now < 2 ^ 32 }
    requires once { AllPairs (λ m n. m ≢ n) (numbers_of states.now) }
    ensures { IfOk result
        (λ into. AreReverseArcs (IsArcOf states.now) (numbers_of states.now) into.items) }
{
    let mut into = not_entered(alloc, states.len())?;
    for source in 0..states.len() as u32 {
        turn_arcs(numbers, states, source, &mut into)?;
    }
    Ok(into)
}
