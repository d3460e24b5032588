ghost use Rattle.std.specs.Prelude.{◌≡◌, IsTrue, List, false};
ghost use Rattle.std.specs.Ordering.{is_gt};
ghost use Rattle.tier_core.specs.declared.sym.Sym.{Sym};
ghost use Rattle.tier_core.specs.Classes.{has};
ghost use Rattle.tier_core.specs.Orders.{column_cmp};
ghost use Rattle.tier_core.specs.Filled.{is_filled};
ghost use Rattle.tier_core.specs.FirstColumn.{first_sym, first_column};

use std::alloc::Global;
use tier_core::{Class, Column, Sym};

/// The least symbol of the set with this number, and Both if the set has none.
#[tactic(auto, unfolding(tier_core::specs::FirstColumn::first_sym))]
fn least_sym(set: u8) -> Sym
    ensures { result ≡ first_sym set }
{
    if set % 2 == 1 {
        Sym::Outside
    } else if (set / 2) % 2 == 1 {
        Sym::Inside
    } else if (set / 4) % 2 == 1 {
        Sym::Start
    } else if (set / 8) % 2 == 1 {
        Sym::End
    } else {
        Sym::Both
    }
}

/// The least column of a nonempty class, in column order: on each tier the least symbol of its set.
/// Allocates no memory.
pub fn least_column(alloc: Global, class: &Class) -> Column
    ensures sets { result ≡ first_column class.now }
    ensures held { IsTrue (is_filled class.now) → IsTrue (has class.now result) }
    ensures least { (column : List Sym) → IsTrue (has class.now column)
        → is_gt (column_cmp result column) ≡ false }
{
    let width = class.width();
    let mut syms = [Sym::Outside; 12];
    for tier in 0..width {
        syms[tier as usize] = least_sym(class.bits(tier));
    }
    Column::from_syms(alloc, &syms[..width as usize])
}
