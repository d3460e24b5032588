ghost use Rattle.std.specs.Prelude.{◌≡◌, ◌<◌, All, IsTrue, MatchOption, Some, ⊤, ◌↔◌, ◌⊎◌, false, length};
ghost use Rattle.std.specs.Ordering.{is_gt};
ghost use Rattle.tier_core.specs.Orders.{column_cmp};
ghost use Rattle.tier_core.specs.FirstColumn.{first_column};
ghost use Rattle.first_paths.specs.Counted.{IsLeft, IsChoiceOf, HasChoice, IsLeastChoice};

use arc_table::TableArc;
use std::alloc::Global;
use std::cmp::Ordering;
use symbol_class::least_column;
use tier_core::{Column, column_cmp};
use weight_law::{Count, UnitWeight};

/// The first column of a move, and where the move leads.
#[derive(Drop)]
pub(crate) struct Choice {
    pub column: Column,
    pub target: u32,
}

/// Whether `n` moves are left at a state.
fn has_left(left: &[Option<Count>], state: u32, n: u32) -> bool
    requires { state < length left.now }
    ensures { IsTrue result ↔ IsLeft left.now state n }
{
    match left[state as usize] {
        None => false,
        Some(count) => count.0 == n,
    }
}

/// The one of two choices with the smaller column: the best so far, or a move's.
fn better_choice(alloc: Global, best: Option<Choice>, arc: &TableArc<UnitWeight>) -> Choice
    ensures of { IsChoiceOf arc.now result.column result.target ⊎ (best ≡ Some result) }
    ensures arc { is_gt (column_cmp result.column (first_column arc.now.class)) ≡ false }
    ensures best { MatchOption best ⊤
        (λ other. is_gt (column_cmp result.column other.column) ≡ false) }
{
    let column = least_column(alloc, &arc.class);
    match best {
        None => Choice {
            column,
            target: arc.target,
        },
        Some(other) => match column_cmp(&column, &other.column) {
            Ordering::Less => Choice {
                column,
                target: arc.target,
            },
            _ => other,
        },
    }
}

/// Of the moves with `n` left, one with the least column.
pub(crate) fn choose(
    alloc: Global,
    arcs: &[TableArc<UnitWeight>],
    left: &[Option<Count>],
    n: u32,
) -> Choice
    requires targets { All (λ arc. arc.target < length left.now) arcs.now }
    requires some { HasChoice left.now n arcs.now }
    ensures { IsLeastChoice left.now n arcs.now result.column result.target }
{
    let mut best: Option<Choice> = None;
    for arc in arcs {
        if !has_left(left, arc.target, n) {
            continue;
        }
        best = Some(better_choice(alloc, best, arc));
    }
    match best {
        Some(choice) => choice,
        None => unreachable!(),
    }
}
