ghost use Rattle.std.specs.Prelude.{◌≡◌, ℕ, ◌+◌, ◌<◌, ◌≤◌, ◌↔◌, false, true, length, slice_index_or, IsTrue};
ghost use Rattle.std.specs.Bool.{OnTrue};
ghost use Rattle.tier_core.specs.Scan.{fits, opens};
ghost use Rattle.tier_core.specs.Timelines.{IsWellFormed, IsReduced, has_edge};

use crate::column::Column;
use crate::sym::Sym;
use crate::timeline::Timeline;

/// Reads one column: whether each symbol fits its tier, and then which tiers are open after it.
fn advance(held: &mut [bool; 12], column: &[Sym]) -> bool
    requires { length column.now ≤ 12 }
    ensures fits { IsTrue result
        ↔
        ((t : ℕ) → t < length column.now
        → fits (slice_index_or held.old t false) (slice_index_or column.now t Sym.Outside)
        ≡ true) }
    ensures opened { OnTrue result
        ((t : ℕ) → t < length column.now
        → slice_index_or held.new t false ≡ opens (slice_index_or column.now t Sym.Outside)) }
    ensures others { (t : ℕ) → length column.now ≤ t
        → slice_index_or held.new t false ≡ slice_index_or held.old t false }
{
    for (tier, sym) in column.iter().enumerate() {
        if !sym.may_come(held[tier]) {
            return false;
        }
        held[tier] = sym.is_open_after();
    }
    true
}

/// Whether no tier is open.
fn are_closed(held: &[bool; 12]) -> bool
    ensures { IsTrue result ↔ ((t : ℕ) → slice_index_or held.now t false ≡ false) }
{
    for tier in held {
        if *tier {
            return false;
        }
    }
    true
}

fn are_well_formed(columns: &[Column], width: u32) -> bool
    ensures { IsTrue result ↔ IsWellFormed width columns.now }
{
    let mut held = [false; 12];
    for column in columns {
        if column.width() != width {
            return false;
        }
        if !advance(&mut held, column.syms()) {
            return false;
        }
    }
    are_closed(&held)
}

/// Whether each column has `width` symbols and the timeline is well formed: the constituents of
/// each tier follow each other, and draw the symbol at each of its places.
pub fn well_formed(timeline: &Timeline, width: u32) -> bool
    ensures { IsTrue result ↔ IsWellFormed width timeline.now }
{
    are_well_formed(timeline.columns(), width)
}

/// Whether a column has an edge.
pub fn has_edge(column: &Column) -> bool
    ensures { result ≡ has_edge column.now }
{
    column.syms().iter().any(|sym| sym.is_edge())
}

/// Whether each column has an edge.
pub fn reduced(timeline: &Timeline) -> bool
    ensures { IsTrue result ↔ IsReduced timeline.now }
{
    timeline.columns().iter().all(|column| has_edge(column))
}
