ghost use Rattle.std.specs.Prelude.{◌≡◌, ◌≤◌, length, All, IfOk, MatchOption};
ghost use Rattle.violation.specs.Conditions.{IsCountable};
ghost use Rattle.tableau.specs.Compared.{IsCompared, IsFirstOther};

use crate::table::TableauRow;
use std::alloc::Global;
use tier_core::{Constraint, NoMemory, Timeline};
use violation::vector;

/// The number of the first constraint, from 0, whose count differs from the least.
fn first_other(least: &[u32], counts: &[u32]) -> Option<u32>
    requires one_length { length counts.now ≡ length least.now }
    requires few { length least.now ≤ 24 }
    ensures { MatchOption result (counts.now ≡ least.now) (IsFirstOther least.now counts.now) }
{
    for (number, count) in counts.iter().enumerate() {
        if *count != least[number] {
            return Some(number as u32);
        }
    }
    None
}

/// A timeline as a row, compared with the least counts of its form. It fails only if memory runs
/// out.
pub(crate) fn compared_row(
    alloc: Global,
    constraints: &[Constraint],
    least: &[u32],
    timeline: &Timeline,
) -> Result<TableauRow, NoMemory>
    requires countable { All (λ c. IsCountable c.left c.right timeline.now) constraints.now }
    requires few_columns { length timeline.now ≤ 65536 }
    requires one_length { length constraints.now ≡ length least.now }
    requires few { length least.now ≤ 24 }
    ensures { IfOk result (IsCompared constraints.now least.now timeline.now) }
{
    let counts = vector(alloc, constraints, timeline)?;
    let worse = first_other(least, &counts);
    let own = timeline.copy(alloc)?;
    Ok(TableauRow {
        timeline: own,
        counts,
        worse,
    })
}
