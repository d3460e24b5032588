ghost use Rattle.std.specs.Prelude.{◌≡◌, ℕ, ◌<◌, ◌≤◌, ◌↔◌, true, not, IsTrue, List, length, map};
ghost use Rattle.tier_core.specs.declared.sym.Sym.{Sym};
ghost use Rattle.tier_core.specs.Classes.{sets_of, has};
ghost use Rattle.tier_core.specs.Scan.{fits};
ghost use Rattle.tier_core.specs.Sets.{is_in};
ghost use Rattle.tier_core.specs.Tiers.{has_tier, is_input, numbers_from};
ghost use Rattle.tier_core.specs.Timelines.{symbol, is_edge, has_edge};
ghost use Rattle.cert_check.specs.Opens.{inputs_before};

use crate::boxes::all_columns;
use symbol_class::restrict;
use tier_core::{Class, Sym, TierKind, has_bit, single_set};

/// The number of the set of the symbols that may come next on a tier that is open, or is not.
fn next_set(is_open: bool) -> u8
    ensures symbols { (s : Sym) → is_in result s ≡ fits is_open s }
    ensures few { result < 32 }
{
    if is_open { 26 } else { 5 }
}

/// The class of the columns whose symbols may come next if the tiers of a mask are open.
pub(crate) fn coming_box(width: u32, mask: u32) -> Class
    requires some { 1 ≤ width }
    requires few { width ≤ 12 }
    ensures width { length (sets_of result) ≡ width }
    ensures columns { (column : List Sym) → length column ≡ width
        → IsTrue (has result column)
        ↔ ((t : ℕ) → t < width → fits (has_tier mask t) (symbol column t) ≡ true) }
{
    let mut class = all_columns(width);
    for tier in 0..width {
        class = restrict(&class, tier, next_set(has_bit(mask, tier)));
    }
    class
}

/// The class of the columns without an edge.
pub(crate) fn edgeless_box(width: u32) -> Class
    requires some { 1 ≤ width }
    requires few { width ≤ 12 }
    ensures width { length (sets_of result) ≡ width }
    ensures columns { (column : List Sym) → length column ≡ width
        → IsTrue (has result column)
        ↔ ((t : ℕ) → t < width → not (is_edge (symbol column t)) ≡ true) }
{
    let mut class = all_columns(width);
    for tier in 0..width {
        class = restrict(&class, tier, 3);
    }
    class
}

/// The class of the columns without an edge on an input tier.
pub(crate) fn still_box(kinds: &[TierKind]) -> Class
    requires some { 1 ≤ length kinds.now }
    requires few { length kinds.now ≤ 12 }
    ensures width { length (sets_of result) ≡ length kinds.now }
    ensures columns { (column : List Sym) → length column ≡ length kinds.now
        → has result column
        ≡ not (has_edge (map (symbol column) (numbers_from is_input 0 kinds.now))) }
{
    let mut class = all_columns(kinds.len() as u32);
    for (tier, kind) in kinds.iter().enumerate() {
        if kind.is_input() {
            class = restrict(&class, tier as u32, 3);
        }
    }
    class
}

/// The class of the columns that have a column of the form on the input tiers.
pub(crate) fn reading_box(kinds: &[TierKind], form: &[Sym]) -> Class
    requires some { 1 ≤ length kinds.now }
    requires few { length kinds.now ≤ 12 }
    requires form { length form.now ≡ inputs_before kinds.now (length kinds.now) }
    ensures width { length (sets_of result) ≡ length kinds.now }
    ensures columns { (column : List Sym) → length column ≡ length kinds.now
        → IsTrue (has result column)
        ↔ (map (symbol column) (numbers_from is_input 0 kinds.now) ≡ form.now) }
{
    let mut class = all_columns(kinds.len() as u32);
    let mut next = 0;
    for (tier, kind) in kinds.iter().enumerate() {
        if kind.is_input() {
            class = restrict(&class, tier as u32, single_set(form[next]));
            next += 1;
        }
    }
    class
}
