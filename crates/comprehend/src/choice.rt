ghost use Rattle.std.specs.Prelude.{◌≡◌, ◌<◌, ◌⊎◌, MatchOption, Some, ⊤, false, length};
ghost use Rattle.std.specs.Ordering.{is_gt};
ghost use Rattle.tier_core.specs.Orders.{column_cmp};
ghost use Rattle.tier_core.specs.Classes.{sets_of};
ghost use Rattle.comprehend.specs.Choices.{IsBetter, LeadsToCell};
ghost use Rattle.comprehend.specs.Searches.{no_distance};

use std::alloc::Global;
use std::cmp::Ordering;
use symbol_class::{is_empty, least_column, meet};
use tier_core::{Class, Column, column_cmp};

/// A column, and the cell to which it leads.
#[derive(Drop)]
pub(crate) struct Choice {
    pub column: Column,
    pub cell: u32,
}

/// The one of two choices with the smaller column.
fn lesser_choice(best: Option<Choice>, choice: Choice) -> Choice
    ensures either { (result ≡ choice) ⊎ (best ≡ Some result) }
    ensures choice { is_gt (column_cmp result.column choice.column) ≡ false }
    ensures best { MatchOption best ⊤
        (λ other. is_gt (column_cmp result.column other.column) ≡ false) }
{
    match best {
        None => choice,
        Some(other) => match column_cmp(&choice.column, &other.column) {
            Ordering::Less => choice,
            _ => other,
        },
    }
}

/// The better of the best choice so far and the least column of both classes, if that leads to a
/// cell with `n` columns left.
pub(crate) fn better_choice(
    alloc: Global,
    best: Option<Choice>,
    a: &Class,
    b: &Class,
    cell: u32,
    left: &[u32],
    n: u32,
) -> Option<Choice>
    requires widths { length (sets_of a.now) ≡ length (sets_of b.now) }
    requires cell { cell < length left.now }
    requires near { n < no_distance }
    ensures { IsBetter (LeadsToCell a.now b.now cell left.now n) best result }
{
    if left[cell as usize] != n {
        return best;
    }
    let both = meet(a, b);
    if is_empty(&both) {
        return best;
    }
    let choice = Choice {
        column: least_column(alloc, &both),
        cell,
    };
    Some(lesser_choice(best, choice))
}
