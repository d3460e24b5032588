ghost use Rattle.std.specs.Prelude.{◌↔◌, Contains, IsTrue};
ghost use Rattle.std.specs.List.Sorted.{IsStrictlySortedBy};
ghost use Rattle.std.specs.Ordering.{nat_cmp};
ghost use Rattle.answer_text.specs.Right.{numbers_of};

use answer_text::StateLine;

/// Whether a state has a node number. The states ascend by their numbers.
pub(crate) fn has_state(states: &[StateLine], number: u32) -> bool
    requires { IsStrictlySortedBy nat_cmp (numbers_of states.now) }
    ensures { IsTrue result ↔ Contains (numbers_of states.now) number }
{
    states
        .binary_search_by_key(&number, |state| state.node)
        .is_ok()
}
