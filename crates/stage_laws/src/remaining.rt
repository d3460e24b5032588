ghost use Rattle.std.specs.Prelude.{◌≡◌, ℕ, List, Option, None, Some, IsSome, ◌<◌, length, slice_index_or};
ghost use Rattle.weight_law.specs.declared.count.Count.{Count};
ghost use Rattle.tier_core.specs.declared.sym.Sym.{Sym};
ghost use Rattle.tier_core.specs.declared.constraint.Constraint.{Constraint};
ghost use Rattle.tier_core.specs.Tiers.{Tiers};
ghost use Rattle.tier_core.specs.Kinds.{PrefixKind};
ghost use Rattle.arc_table.specs.declared.state.TableState.{TableState};
ghost use Rattle.arc_table.specs.Runs.{IsLeastFrom};
ghost use Rattle.distances.specs.Least.{AreLeast};
ghost use Rattle.violation.specs.Stages.{IsRemaining};
ghost use Rattle.kind_tables.specs.StageTables.{IsStage, IsStageTable, name_of};
ghost use Rattle.violation.specs.Problems.{Problem};

use weight_law::{Count, Weight};

/// The least weight from a state of a stage's table is what remains to be counted from the kind
/// that names it, however the weight was found. Each state has one.
pub fn least_weights_remain()
    ensures from_state { (problem : Problem) (r : ℕ) (names : List PrefixKind)
        (states : List (TableState Count ⟦<Count as Weight>⟧)) → IsStage problem r
        → IsStageTable problem r names states → (s : ℕ) (w : Count) → IsLeastFrom states s w
        → IsRemaining problem r (name_of names s) w.0 }
    ensures of_all { (problem : Problem) (r : ℕ) (names : List PrefixKind)
        (states : List (TableState Count ⟦<Count as Weight>⟧)) → IsStage problem r
        → IsStageTable problem r names states → (least : List (Option Count))
        → AreLeast states least → (s : ℕ) (w : Count) → slice_index_or least s None ≡ Some w
        → IsRemaining problem r (name_of names s) w.0 }
    ensures each_state { (problem : Problem) (r : ℕ) (names : List PrefixKind)
        (states : List (TableState Count ⟦<Count as Weight>⟧))
        → IsStageTable problem r names states → (least : List (Option Count))
        → AreLeast states least → (s : ℕ) → s < length states
        → IsSome (slice_index_or least s None) }
{}
