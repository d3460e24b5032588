ghost use Rattle.std.specs.Prelude.{◌≡◌, ◌<◌, ◌^◌, All, AllPairs, IsTrue, length};
ghost use Rattle.std.specs.List.{list_any};
ghost use Rattle.tier_core.specs.Symbols.{symbols};
ghost use Rattle.tier_core.specs.Sets.{is_in};
ghost use Rattle.tier_core.specs.Classes.{AreDisjoint};
ghost use Rattle.definition_tests.specs.Fit.{IsFit, AreFit, in_both};

use arc_table::{TableArc, TableState};
use tier_core::{Class, Sym};
use weight_law::Count;

/// Whether a set has a symbol.
fn has_symbol(set: u8) -> bool
    ensures { result ≡ list_any (is_in set) symbols }
{
    set % 2 == 1
        || (set / 2) % 2 == 1
        || (set / 4) % 2 == 1
        || (set / 8) % 2 == 1
        || (set / 16) % 2 == 1
}

/// Whether a symbol is in both sets.
fn shares(a: u8, b: u8, sym: Sym) -> bool
    ensures { result ≡ in_both a b sym }
{
    match sym {
        Sym::Outside => a % 2 == 1 && b % 2 == 1,
        Sym::Inside => (a / 2) % 2 == 1 && (b / 2) % 2 == 1,
        Sym::Start => (a / 4) % 2 == 1 && (b / 4) % 2 == 1,
        Sym::End => (a / 8) % 2 == 1 && (b / 8) % 2 == 1,
        Sym::Both => (a / 16) % 2 == 1 && (b / 16) % 2 == 1,
    }
}

/// Whether some symbol is in both sets.
fn meet(a: u8, b: u8) -> bool
    ensures { result ≡ list_any (in_both a b) symbols }
{
    shares(a, b, Sym::Outside)
        || shares(a, b, Sym::Inside)
        || shares(a, b, Sym::Start)
        || shares(a, b, Sym::End)
        || shares(a, b, Sym::Both)
}

/// Whether no column is in both classes, which are over one tier.
fn are_apart(a: &Class, b: &Class) -> bool
    ensures { IsTrue result → AreDisjoint a.now b.now }
{
    if a.width() != 1 || b.width() != 1 {
        return false;
    }
    !meet(a.bits(0), b.bits(0))
}

/// Whether a move fits a table of `n` states over one tier.
fn fits(arc: &TableArc<Count>, n: u32) -> bool
    ensures { IsTrue result → IsFit n arc.now }
{
    arc.target < n
        && u64::from(n) * u64::from(arc.weight.0) <= u64::from(u32::MAX)
        && arc.class.width() == 1
        && has_symbol(arc.class.bits(0))
}

fn all_fit(arcs: &[TableArc<Count>], n: u32) -> bool
    ensures { IsTrue result → All (IsFit n) arcs.now }
{
    arcs.iter().all(|arc| fits(arc, n))
}

fn apart_from(class: &Class, others: &[TableArc<Count>]) -> bool
    ensures { IsTrue result → All (λ arc. AreDisjoint class.now arc.class) others.now }
{
    others.iter().all(|arc| are_apart(class, &arc.class))
}

fn all_apart(arcs: &[TableArc<Count>]) -> bool
    ensures { IsTrue result → AllPairs (λ a b. AreDisjoint a.class b.class) arcs.now }
{
    for place in 0..arcs.len() {
        if !apart_from(&arcs[place].class, &arcs[place + 1..]) {
            return false;
        }
    }
    true
}

/// Whether the states are those of a table over one tier.
pub(crate) fn are_fit(states: &[TableState<Count>]) -> bool
    requires { length states.now < 2 ^ 32 }
    ensures { IsTrue result → AreFit states.now }
{
    let n = states.len() as u32;
    states
        .iter()
        .all(|state| all_fit(&state.arcs, n) && all_apart(&state.arcs))
}
