ghost use Rattle.std.specs.Prelude.{◌≡◌, ℕ, ◌<◌, ◌≤◌, ◌&&◌, ◌↔◌, true, false, not, IsTrue, List, length, map};
ghost use Rattle.tier_core.specs.declared.sym.Sym.{Sym};
ghost use Rattle.tier_core.specs.Classes.{sets_of, has};
ghost use Rattle.tier_core.specs.Scan.{fits};
ghost use Rattle.tier_core.specs.Sets.{is_in};
ghost use Rattle.tier_core.specs.Tiers.{has_tier, is_input, numbers_from};
ghost use Rattle.tier_core.specs.Timelines.{symbol, is_edge, has_edge};

use crate::boxes::nothing;
use symbol_class::restrict;
use tier_core::{Class, Sym, TierKind, has_bit, single_set};

/// The set of the symbols that may come next on a tier that is open, or on one that is not.
fn fitting_set(is_open: bool) -> u8
    ensures few { result < 32 }
    ensures symbols { (s : Sym) → is_in result s ≡ fits is_open s }
{
    if is_open { 26 } else { 5 }
}

/// The columns of a class each of whose symbols may come next if exactly the tiers in a mask are
/// open.
pub(crate) fn following(class: &Class, opened: u16) -> Class
    ensures width { length (sets_of result) ≡ length (sets_of class.now) }
    ensures columns { (column : List Sym) → IsTrue (has result column)
        ↔ (IsTrue (has class.now column) × ((t : ℕ) → t < length (sets_of class.now)
        → fits (has_tier opened t) (symbol column t) ≡ true)) }
{
    let mut rest = *class;
    for tier in 0..class.width() {
        rest = restrict(&rest, tier, fitting_set(has_bit(opened as u32, tier)));
    }
    rest
}

/// The columns of a class without an edge.
pub(crate) fn edgeless(class: &Class) -> Class
    ensures width { length (sets_of result) ≡ length (sets_of class.now) }
    ensures columns { (column : List Sym) → IsTrue (has result column)
        ↔ (IsTrue (has class.now column) × ((t : ℕ) → t < length (sets_of class.now)
        → is_edge (symbol column t) ≡ false)) }
{
    let mut rest = *class;
    for tier in 0..class.width() {
        rest = restrict(&rest, tier, 3);
    }
    rest
}

/// The columns of a class without an edge on an input tier.
pub(crate) fn without_input(class: &Class, kinds: &[TierKind]) -> Class
    requires width { length kinds.now ≡ length (sets_of class.now) }
    requires few { length kinds.now ≤ 12 }
    ensures width { length (sets_of result) ≡ length (sets_of class.now) }
    ensures columns { (column : List Sym) → has result column
        ≡ (has class.now column && not (has_edge (map (symbol column)
        (numbers_from is_input 0 kinds.now)))) }
{
    let mut rest = *class;
    for (tier, kind) in kinds.iter().enumerate() {
        if kind.is_input() {
            rest = restrict(&rest, tier as u32, 3);
        }
    }
    rest
}

/// The columns of a class whose input part is a column of the form.
pub(crate) fn with_input(class: &Class, kinds: &[TierKind], form: &[Sym]) -> Class
    requires width { length kinds.now ≡ length (sets_of class.now) }
    requires few { length kinds.now ≤ 12 }
    ensures width { length (sets_of result) ≡ length (sets_of class.now) }
    ensures columns { (column : List Sym) → IsTrue (has result column)
        ↔ (IsTrue (has class.now column) × (map (symbol column)
        (numbers_from is_input 0 kinds.now) ≡ form.now)) }
{
    let mut rest = *class;
    let mut next = 0;
    for (tier, kind) in kinds.iter().enumerate() {
        if kind.is_input() {
            if next == form.len() {
                return nothing(class);
            }
            rest = restrict(&rest, tier as u32, single_set(form[next]));
            next += 1;
        }
    }
    if next < form.len() {
        return nothing(class);
    }
    rest
}
