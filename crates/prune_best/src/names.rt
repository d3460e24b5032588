ghost use Rattle.std.specs.Prelude.{◌≡◌, ◌<◌, ◌^◌, IfOk, length};
ghost use Rattle.prune_best.specs.Names.{AreNumbered, Grows};

use std::alloc::AllocError;

/// The new number of an old state, which gets the next one if it has none. `names` has the old
/// state of each number, and `numbers` the number of each old state.
pub(crate) fn number_state(
    names: &mut Vec<u32>,
    numbers: &mut Vec<Option<u32>>,
    state: u32,
) -> Result<u32, AllocError>
    requires few { length numbers.old.items < 2 ^ 32 }
    requires inside { state < length numbers.old.items }
    requires numbered { AreNumbered names.old.items numbers.old.items }
    ensures same { length numbers.new.items ≡ length numbers.old.items }
    ensures numbered { IfOk result (λ _. AreNumbered names.new.items numbers.new.items) }
    ensures grows { IfOk result (λ k. Grows names.old.items names.new.items k state) }
{
    match numbers[state as usize] {
        Some(number) => Ok(number),
        None => {
            let number = names.len() as u32;
            names.push(state)?;
            numbers[state as usize] = Some(number);
            Ok(number)
        }
    }
}
