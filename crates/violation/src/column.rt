ghost use Rattle.std.specs.Prelude.{◌≡◌, length};
ghost use Rattle.std.specs.List.{list_all, list_any};
ghost use Rattle.tier_core.specs.Sides.{edge_among};
ghost use Rattle.violation.specs.Columns.{part_present, is_present, opens_interior, opens_all};
ghost use Rattle.violation.specs.Conditions.{AreInColumn};

use tier_core::{Event, Part, Sym};

/// Whether a part of a constituent is present at a symbol of its tier.
fn part_at(part: Part, sym: Sym) -> bool
    ensures { result ≡ part_present part sym }
{
    match part {
        Part::Start => matches!(sym, Sym::Start | Sym::Both),
        Part::End => matches!(sym, Sym::End | Sym::Both),
        Part::Interior => matches!(sym, Sym::Inside),
    }
}

/// Whether an event of each type is present at a column.
pub fn all_present(column: &[Sym], types: &[Event]) -> bool
    requires { AreInColumn types.now column.now }
    ensures { result ≡ list_all (is_present column.now) types.now }
{
    types
        .iter()
        .all(|e| part_at(e.part, column[e.tier as usize]))
}

/// Whether an event of some type is present at a column.
pub fn any_present(column: &[Sym], types: &[Event]) -> bool
    requires { AreInColumn types.now column.now }
    ensures { result ≡ list_any (is_present column.now) types.now }
{
    types
        .iter()
        .any(|e| part_at(e.part, column[e.tier as usize]))
}

/// Whether a column has an edge on the tier of some type.
pub fn has_edge_among(column: &[Sym], types: &[Event]) -> bool
    requires { AreInColumn types.now column.now }
    ensures { result ≡ edge_among types.now column.now }
{
    types.iter().any(|e| column[e.tier as usize].is_edge())
}

/// Whether the interior of some type is open after a column.
pub fn opens_some(column: &[Sym], types: &[Event]) -> bool
    requires { AreInColumn types.now column.now }
    ensures { result ≡ list_any (opens_interior column.now) types.now }
{
    types.iter().any(|e| !e.part.is_edge() && column[e.tier as usize].is_open_after())
}

/// Whether the tiers of all types are open after a column.
pub fn opens_each(column: &[Sym], types: &[Event]) -> bool
    requires { AreInColumn types.now column.now }
    ensures { result ≡ opens_all types.now column.now }
{
    types
        .iter()
        .all(|e| column[e.tier as usize].is_open_after())
}
