ghost use Rattle.std.specs.Prelude.{◌≡◌, All, IsTrue, MatchOption};
ghost use Rattle.tier_core.specs.Filled.{is_filled};
ghost use Rattle.symbol_class.specs.Held.{some_has};
ghost use Rattle.cert_check.specs.Arcs.{IsLeastColumn, IsLesser, IsNoColumn};

use std::alloc::Global;
use symbol_class::least_column;
use tier_core::{Class, Column, column_cmp};

/// The one of two columns that comes first.
fn lesser_column(first: Column, second: Column) -> Column
    ensures { IsLesser first second result }
{
    if column_cmp(&first, &second).is_gt() {
        second
    } else {
        first
    }
}

/// The smaller of a column and another, if there is one.
fn lesser_of(best: Option<Column>, column: Column) -> Column
    ensures { MatchOption best (result ≡ column) (λ other. IsLesser other column result) }
{
    match best {
        None => column,
        Some(other) => lesser_column(other, column),
    }
}

/// The least column of some classes, none of which is empty; none if there is no class.
pub(crate) fn least_of(alloc: Global, classes: &[Class]) -> Option<Column>
    requires { All (λ class. IsTrue (is_filled class)) classes.now }
    ensures { MatchOption result (IsNoColumn (some_has classes.now))
        (IsLeastColumn (some_has classes.now)) }
{
    let mut least = None;
    for class in classes {
        least = Some(lesser_of(least, least_column(alloc, class)));
    }
    least
}
