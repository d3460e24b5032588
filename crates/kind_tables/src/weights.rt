ghost use Rattle.std.specs.Prelude.{◌≡◌, ℕ, ◌-◌, ◌<◌, ◌≤◌, ◌^◌, List, ◌++◌, length, Contains, slice_index_or};
ghost use Rattle.weight_law.specs.declared.count.Count.{Count};
ghost use Rattle.tier_core.specs.declared.sym.Sym.{Sym};
ghost use Rattle.tier_core.specs.declared.constraint.Constraint.{Constraint};
ghost use Rattle.tier_core.specs.Tiers.{Tiers};
ghost use Rattle.tier_core.specs.Kinds.{PrefixKind};
ghost use Rattle.arc_table.specs.declared.arc.TableArc.{TableArc};
ghost use Rattle.arc_table.specs.declared.state.TableState.{TableState};
ghost use Rattle.arc_table.specs.Moves.{moves_at};
ghost use Rattle.arc_table.specs.Runs.{IsPath, Reads, weight_of, AcceptingRun, SizesWithin};
ghost use Rattle.violation.specs.Candidates.{IsCandidate, vec, vec_so_far, count_at, count_so_far_at};
ghost use Rattle.kind_tables.specs.StageTables.{IsStage, IsStageTable};
ghost use Rattle.violation.specs.Problems.{Problem};

use weight_law::{Count, Weight};

/// From stage 1 on, an accepting run of a stage's table weighs the violations of constraint r,
/// counted from 1, of the candidate that it reads. A path from the start weighs the violations so
/// far of each candidate that begins with what it reads.
pub fn weights_are_violations()
    ensures runs { (problem : Problem) (r : ℕ) (names : List PrefixKind)
        (states : List (TableState Count ⟦<Count as Weight>⟧)) → IsStage problem r → 1 ≤ r
        → IsStageTable problem r names states
        → (arcs : List (TableArc Count ⟦<Count as Weight>⟧)) (T : List (List Sym))
        → AcceptingRun states T arcs → (weight_of arcs).0 ≡ count_at problem r T }
    ensures paths { (problem : Problem) (r : ℕ) (names : List PrefixKind)
        (states : List (TableState Count ⟦<Count as Weight>⟧)) → IsStage problem r → 1 ≤ r
        → IsStageTable problem r names states
        → (arcs : List (TableArc Count ⟦<Count as Weight>⟧)) (s : ℕ) (p q : List (List Sym))
        → IsPath states 0 arcs s → Reads arcs p → IsCandidate problem (p ++ q)
        → (weight_of arcs).0 ≡ count_so_far_at problem r (p ++ q) (length p) }
{}

/// Each move of a stage's table weighs at most 1, so that the weights of its runs without repeats
/// fit in 32 bits if the number of its states does.
pub fn moves_weigh_one_at_most()
    ensures moves { (problem : Problem) (r : ℕ) (names : List PrefixKind)
        (states : List (TableState Count ⟦<Count as Weight>⟧))
        → IsStageTable problem r names states
        → (s : ℕ) (arc : TableArc Count ⟦<Count as Weight>⟧) → Contains (moves_at states s) arc
        → arc.weight.0 ≤ 1 }
    ensures sizes { (problem : Problem) (r : ℕ) (names : List PrefixKind)
        (states : List (TableState Count ⟦<Count as Weight>⟧))
        → IsStageTable problem r names states → length states < 2 ^ 32
        → SizesWithin states u32.MAX }
{}
