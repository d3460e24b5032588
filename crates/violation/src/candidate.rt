ghost use Rattle.tier_core.specs.declared.constraint.Constraint.{Constraint};
ghost use Rattle.std.specs.Prelude.{List, ◌≡◌, ◌≤◌, ◌↔◌, length, map, All, IsTrue};
ghost use Rattle.tier_core.specs.Tables.{tiers_of_table};
ghost use Rattle.tier_core.specs.Tiers.{is_input, numbers_from};
ghost use Rattle.tier_core.specs.Timelines.{symbol, has_edge, squeeze, project};
ghost use Rattle.violation.specs.Candidates.{IsCandidate};
ghost use Rattle.violation.specs.Problems.{problem_from};

use tier_core::{Column, Sym, TierKind, TierTable, Timeline, reduced, well_formed};

fn is_same(a: Sym, b: Sym) -> bool
    ensures { IsTrue result ↔ (a ≡ b) }
{
    a == b
}

/// Whether a column has an edge on an input tier.
pub fn has_input_edge(kinds: &[TierKind], column: &[Sym]) -> bool
    requires { length column.now ≡ length kinds.now }
    ensures { result ≡ has_edge (map (symbol column.now) (numbers_from is_input 0 kinds.now)) }
{
    for (tier, kind) in kinds.iter().enumerate() {
        if kind.is_input() && column[tier].is_edge() {
            return true;
        }
    }
    false
}

/// Whether what a column has on the input tiers is a column of the form.
pub fn has_input_part(kinds: &[TierKind], column: &[Sym], form: &[Sym]) -> bool
    requires { length column.now ≡ length kinds.now }
    ensures { IsTrue result
        ↔ (map (symbol column.now) (numbers_from is_input 0 kinds.now) ≡ form.now) }
{
    let mut next = 0;
    for (tier, kind) in kinds.iter().enumerate() {
        if kind.is_input() {
            if next == form.len() || !is_same(column[tier], form[next]) {
                return false;
            }
            next += 1;
        }
    }
    next == form.len()
}

/// Whether the input parts of the columns that have an edge there are the columns of the form.
fn spells_form(kinds: &[TierKind], columns: &[Column], form: &[Column]) -> bool
    requires { All (λ column. length column ≡ length kinds.now) columns.now }
    ensures { IsTrue result
        ↔ (squeeze (project (numbers_from is_input 0 kinds.now) columns.now) ≡ form.now) }
{
    let mut place = 0;
    for column in columns {
        if has_input_edge(kinds, column.syms()) {
            if place == form.len() || !has_input_part(kinds, column.syms(), form[place].syms()) {
                return false;
            }
            place += 1;
        }
    }
    place == form.len()
}

/// Whether a timeline is a candidate of a form: it is well formed and reduced over the tiers, and
/// its projection to the input tiers, squeezed, is the form.
pub fn is_candidate(tiers: &TierTable, form: &Timeline, timeline: &Timeline) -> bool
    ensures { (constraints : List Constraint) → IsTrue result
        ↔ IsCandidate (problem_from tiers.now constraints form.now) timeline.now }
{
    well_formed(timeline, tiers.kinds.len() as u32)
        && reduced(timeline)
        && spells_form(&tiers.kinds, timeline.columns(), form.columns())
}
