ghost use Rattle.std.specs.Prelude.{ℕ, ◌<◌, ◌^◌, List, length};
ghost use Rattle.weight_law.specs.declared.ranked.Ranked.{Ranked};
ghost use Rattle.weight_law.specs.Ranked.{IsOfVector};
ghost use Rattle.tier_core.specs.declared.sym.Sym.{Sym};
ghost use Rattle.tier_core.specs.Kinds.{PrefixKind};
ghost use Rattle.arc_table.specs.declared.arc.TableArc.{TableArc};
ghost use Rattle.arc_table.specs.declared.state.TableState.{TableState};
ghost use Rattle.arc_table.specs.Runs.{weight_of, AcceptingRun, SizesWithin};
ghost use Rattle.violation.specs.Candidates.{counts_on};
ghost use Rattle.violation.specs.Problems.{Problem};
ghost use Rattle.kind_tables.specs.RankedTables.{IsRankedTable, IsSinglePass};

use weight_law::{Ranked, Weight};

/// An accepting run of the table of a single pass weighs the vector of the timeline that it reads. The
/// weights of its runs without repeats fit in 32 bits where the number of its states does.
pub fn weights_are_vectors()
    ensures runs { (problem : Problem) (names : List PrefixKind)
        (states : List (TableState Ranked ⟦<Ranked as Weight>⟧))
        → IsSinglePass problem names states
        → (arcs : List (TableArc Ranked ⟦<Ranked as Weight>⟧)) (T : List (List Sym))
        → AcceptingRun states T arcs → IsOfVector (weight_of arcs) (counts_on problem T) }
    ensures sizes { (problem : Problem) (names : List PrefixKind)
        (states : List (TableState Ranked ⟦<Ranked as Weight>⟧))
        → IsRankedTable problem names states → length states < 2 ^ 32
        → SizesWithin states u32.MAX }
{}
