ghost use Rattle.std.specs.Prelude.{◌≡◌, ◌<◌, ℕ, IfOk, IsTrue, length};
ghost use Rattle.comprehend.specs.Searches.{no_distance, Reaches};

use std::alloc::AllocError;

/// The number of a cell from which no way to an end is known.
pub(crate) const FAR: u32 = 4_294_967_295;

/// If there is a step from a cell about which nothing is known yet, then the cell has `n` columns left
/// and is appended to `next`.
pub(crate) fn look(
    steps: bool,
    cell: u32,
    n: u32,
    left: &mut Vec<u32>,
    next: &mut Vec<u32>,
) -> Result<(), AllocError>
    requires cell { IsTrue steps → cell < length left.old.items }
    requires near { n < no_distance }
    ensures { IfOk result
        (λ _.
        Reaches
        (λ v. IsTrue steps
        × (v ≡ cell)) n left.old.items left.new.items next.old.items next.new.items) }
{
    if !steps {
        return Ok(());
    }
    if left[cell as usize] < FAR {
        return Ok(());
    }
    left[cell as usize] = n;
    next.push(cell)?;
    Ok(())
}
