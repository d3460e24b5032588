ghost use Rattle.std.specs.Prelude.{◌≡◌, ◌≤◌, IfOk, List, MatchOption, length};
ghost use Rattle.tier_core.specs.declared.sym.Sym.{Sym};
ghost use Rattle.tier_core.specs.Orders.{IsFirst};
ghost use Rattle.tier_core.specs.Tables.{tiers_of_table};
ghost use Rattle.answer_text.specs.Sound.{IsSound};
ghost use Rattle.violation.specs.Problems.{problem_from};
ghost use Rattle.comprehend.specs.Surfaces.{surface_of, AcceptsHeard, AreReadable, IsSurface, HasSurface};

use crate::follow::first_along;
use crate::tests_of::tests_of;
use answer_text::{Answer, StateLine};
use grammar_reader::Grammar;
use std::alloc::Global;
use tier_core::{NoMemory, TierTable, Timeline};

/// The first of the timelines with a surface that an automaton accepts; `None` exactly if it
/// accepts none.
fn first_heard(
    alloc: Global,
    tiers: &TierTable,
    states: &[StateLine],
    surface: &Timeline,
) -> Result<Option<Timeline>, NoMemory>
    requires readable { AreReadable (tiers_of_table tiers.now).width states.now }
    requires few { length states.now ≤ 65536 }
    requires surface { IsSurface (tiers_of_table tiers.now) surface.now }
    requires short { length surface.now ≤ 64 }
    ensures { IfOk result (λ first.
        MatchOption first
        ((T : List (List Sym))
        → AcceptsHeard states.now (tiers_of_table tiers.now).overt surface.now T → ⊥)
        (IsFirst (AcceptsHeard states.now (tiers_of_table tiers.now).overt surface.now))) }
{
    match tests_of(alloc, &tiers.kinds, surface) {
        Ok(tests) => first_along(alloc, states, &tests),
        Err(_) => Err(NoMemory),
    }
}

/// The first of the optimal candidates of a sound answer's form that have a surface; `None` exactly
/// if none has it. It fails only if memory runs out.
///
/// The surface is well formed and reduced over the overt tiers and has at most 64 columns. The
/// answer has at most 65,536 states. For each state and each place in the surface 4 bytes are held.
pub fn has_surface(
    alloc: Global,
    grammar: &Grammar,
    answer: &Answer,
    surface: &Timeline,
) -> Result<Option<Timeline>, NoMemory>
    requires sound { IsSound
        (problem_from grammar.now.tiers grammar.now.constraints.items answer.now.form) answer.now }
    requires few { length answer.now.automaton.states.items ≤ 65536 }
    requires surface { IsSurface (tiers_of_table grammar.now.tiers) surface.now }
    requires short { length surface.now ≤ 64 }
    ensures { IfOk result (λ first.
        MatchOption first
        ((T : List (List Sym))
        → HasSurface (problem_from grammar.now.tiers grammar.now.constraints.items answer.now.form)
        surface.now T → ⊥)
        (IsFirst
        (HasSurface (problem_from grammar.now.tiers grammar.now.constraints.items answer.now.form)
        surface.now))) }
{
    first_heard(alloc, &grammar.tiers, &answer.automaton.states, surface)
}
