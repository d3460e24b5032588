ghost use Rattle.std.specs.Prelude.{ℕ, ◌<◌, ◌↔◌, List, length};
ghost use Rattle.weight_law.specs.declared.count.Count.{Count};
ghost use Rattle.tier_core.specs.declared.sym.Sym.{Sym};
ghost use Rattle.tier_core.specs.declared.constraint.Constraint.{Constraint};
ghost use Rattle.tier_core.specs.Tiers.{Tiers};
ghost use Rattle.tier_core.specs.Kinds.{PrefixKind};
ghost use Rattle.arc_table.specs.declared.state.TableState.{TableState};
ghost use Rattle.arc_table.specs.Runs.{Accepts, IsOnRun};
ghost use Rattle.violation.specs.Candidates.{IsCandidate};
ghost use Rattle.kind_tables.specs.StageTables.{IsStage, AreNamedByKinds, AreWeighed, IsStageTable};
ghost use Rattle.kind_tables.specs.FoundTables.{AreReached, HaveAllMoves};
ghost use Rattle.violation.specs.Problems.{Problem};

use weight_law::{Count, Weight};

/// A table that is named by kinds and has all their moves accepts exactly the candidates, and each
/// of its states that is reached is on a run. When no constraint is ranked it is the table of
/// stage 0.
pub fn complete_tables_accept_the_candidates()
    ensures words { (problem : Problem) (r : ℕ) (names : List PrefixKind)
        (states : List (TableState Count ⟦<Count as Weight>⟧)) → IsStage problem r
        → AreNamedByKinds problem r names states → HaveAllMoves problem names states
        → (T : List (List Sym)) → Accepts states T ↔ IsCandidate problem T }
    ensures on_runs { (problem : Problem) (r : ℕ) (names : List PrefixKind)
        (states : List (TableState Count ⟦<Count as Weight>⟧)) → IsStage problem r
        → AreNamedByKinds problem r names states → HaveAllMoves problem names states
        → AreReached states → (s : ℕ) → s < length states → IsOnRun states s }
    ensures first { (problem : Problem) (names : List PrefixKind)
        (states : List (TableState Count ⟦<Count as Weight>⟧)) → IsStage problem 0
        → AreNamedByKinds problem 0 names states → AreWeighed problem 0 names states
        → HaveAllMoves problem names states → AreReached states
        → IsStageTable problem 0 names states }
{}
