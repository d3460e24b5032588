ghost use Rattle.std.specs.Prelude.{◌≡◌, ◌^◌, ◌<◌, ◌≤◌, length, map, IfOk, IsTrue};
ghost use Rattle.std.specs.List.{AllByRecursion};
ghost use Rattle.tier_core.specs.Tiers.{tiers_of};
ghost use Rattle.tier_core.specs.Timelines.{symbol, squeeze, project};

use crate::NoMemory;
use crate::column::Column;
use crate::form::has_edge;
use crate::mask::has_bit;
use crate::sym::Sym;
use crate::timeline::Timeline;
use smallvec::SmallVec;
use std::alloc::Global;

/// The symbols of the tiers in a mask.
fn kept_syms(alloc: Global, column: &[Sym], keep: u16) -> SmallVec<Sym, 12>
    requires few { length column.now ≤ 12 }
    requires within { keep < 2 ^ length column.now }
    ensures syms { result.items ≡ map (symbol column.now) (tiers_of keep) }
    ensures few { length result.items ≤ 12 }
{
    let mut syms = SmallVec::new(alloc);
    for tier in 0..12 {
        if has_bit(keep as u32, tier as u32) {
            syms.push_reserved(column[tier]);
        }
    }
    syms
}

/// What a column has on the tiers in a mask.
fn kept_tiers(alloc: Global, column: &Column, keep: u16) -> Column
    requires some { 0 < keep }
    requires within { keep < 2 ^ length column.now }
    ensures { result ≡ map (symbol column.now) (tiers_of keep) }
{
    let syms = kept_syms(alloc, column.syms(), keep);
    Column::from_syms(alloc, syms.as_slice())
}

/// What a timeline has on the tiers in a mask, bit t of which, counted from the lowest, stands for
/// tier t. The mask names at least one tier, and none that a column lacks. Fails only if memory
/// runs out.
pub fn project(alloc: Global, timeline: &Timeline, keep: u16) -> Result<Timeline, NoMemory>
    requires some { 0 < keep }
    requires within { AllByRecursion (λ column. keep < 2 ^ length column) timeline.now }
    ensures { IfOk result (λ t. t ≡ project (tiers_of keep) timeline.now) }
{
    let mut kept = Timeline::new(alloc);
    for column in timeline.columns() {
        let narrow = kept_tiers(alloc, column, keep);
        if kept.push(narrow).is_err() {
            return Err(NoMemory);
        }
    }
    Ok(kept)
}

/// The columns of a timeline that have an edge, in their order. Fails only if memory runs out.
pub fn squeeze(alloc: Global, timeline: &Timeline) -> Result<Timeline, NoMemory>
    ensures { IfOk result (λ t. t ≡ squeeze timeline.now) }
{
    let mut kept = Timeline::new(alloc);
    for column in timeline.columns() {
        if has_edge(column) {
            let copy = column.copy(alloc);
            if kept.push(copy).is_err() {
                return Err(NoMemory);
            }
        }
    }
    Ok(kept)
}
