ghost use Rattle.std.specs.Prelude.{◌≡◌, ◌≢◌, ◌↔◌, ◌<◌, ◌^◌, ℕ, Some, IfOk, AllPairs, length, slice_get};
ghost use Rattle.answer_text.specs.Right.{numbers_of};

use answer_text::StateLine;
use indexmap::IndexSet;
use std::alloc::{AllocError, Global};

/// The node numbers of the states, in the order of the states.
pub(crate) fn node_numbers(alloc: Global, states: &[StateLine]) -> Result<IndexSet<u32>, AllocError>
    requires { AllPairs (λ m n. m ≢ n) (numbers_of states.now) }
    ensures { IfOk result (λ numbers. numbers.keys ≡ numbers_of states.now) }
{
    let mut numbers = IndexSet::new(alloc);
    for state in states {
        if numbers.insert(state.node).is_err() {
            return Err(AllocError);
        }
    }
    Ok(numbers)
}

/// The position of a node number, counted from 0, if it is there.
pub(crate) fn place_of(numbers: &IndexSet<u32>, node: u32) -> Option<u32>
    requires few { length numbers.now.keys < 2 ^ 32 }
    requires once { AllPairs (λ m n. m ≢ n) numbers.now.keys }
    ensures { (place : ℕ) → (result ≡ Some place) ↔ (slice_get numbers.now.keys place ≡ Some node) }
{
    match numbers.get_index_of(&node) {
        Some(place) => Some(place as u32),
        None => None,
    }
}
