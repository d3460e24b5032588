ghost use Rattle.std.specs.Prelude.{◌≡◌, ℕ, ◌-◌, ◌≤◌, ◌↔◌, List, length, slice_index_or};
ghost use Rattle.weight_law.specs.declared.count.Count.{Count};
ghost use Rattle.weight_law.specs.declared.unit_weight.UnitWeight.{UnitWeight};
ghost use Rattle.tier_core.specs.declared.sym.Sym.{Sym};
ghost use Rattle.tier_core.specs.declared.constraint.Constraint.{Constraint};
ghost use Rattle.tier_core.specs.Tiers.{Tiers};
ghost use Rattle.tier_core.specs.Kinds.{PrefixKind};
ghost use Rattle.arc_table.specs.declared.state.TableState.{TableState};
ghost use Rattle.arc_table.specs.Runs.{Accepts, IsLeastWord, IsLeastFrom};
ghost use Rattle.prune_best.specs.Tight.{IsTight};
ghost use Rattle.violation.specs.Candidates.{vec, IsOptimalFor, IsOptimal, IsLeastVector, count_at};
ghost use Rattle.kind_tables.specs.StageTables.{IsStage, IsStageTable};
ghost use Rattle.violation.specs.Problems.{Problem, last_stage};

use weight_law::{Count, UnitWeight, Weight};

/// The words of least weight of the table of stage r are exactly the r-optimal candidates. So a
/// table that is pruned to these words accepts the candidates that constraint r leaves.
pub fn words_of_least_weight_are_optimal()
    ensures least_words { (problem : Problem) (r : ℕ) (names : List PrefixKind)
        (states : List (TableState Count ⟦<Count as Weight>⟧)) → IsStage problem r
        → IsStageTable problem r names states → (T : List (List Sym)) → IsLeastWord states T
        ↔ IsOptimalFor problem r T }
    ensures pruned { (problem : Problem) (r : ℕ) (names : List PrefixKind)
        (states : List (TableState Count ⟦<Count as Weight>⟧)) → IsStage problem r
        → IsStageTable problem r names states
        → (pruned : List (TableState UnitWeight ⟦<UnitWeight as Weight>⟧)) (old : List ℕ)
        → IsTight states pruned old → (T : List (List Sym)) → Accepts pruned T
        ↔ IsOptimalFor problem r T }
{}

/// From stage 1 on, the least weight from the start of a stage's table is the violations of
/// constraint r of every r-optimal candidate, and the number of constraint r in the least vector.
pub fn least_weight_is_the_least_number()
    ensures of_candidates { (problem : Problem) (r : ℕ) (names : List PrefixKind)
        (states : List (TableState Count ⟦<Count as Weight>⟧)) → IsStage problem r → 1 ≤ r
        → IsStageTable problem r names states → (w : Count) → IsLeastFrom states 0 w
        → (T : List (List Sym)) → IsOptimalFor problem r T → count_at problem r T ≡ w.0 }
    ensures of_the_vector { (problem : Problem) (r : ℕ) (names : List PrefixKind)
        (states : List (TableState Count ⟦<Count as Weight>⟧)) → IsStage problem r → 1 ≤ r
        → IsStageTable problem r names states → (w : Count) → IsLeastFrom states 0 w
        → (v : List ℕ) → IsLeastVector problem v → slice_index_or v (r - 1) 0 ≡ w.0 }
{}

/// A list of as many numbers as there are constraints, each of which is the number of an optimal
/// candidate, is the least vector. What is optimal for more constraints is also optimal for fewer.
pub fn numbers_make_the_least_vector()
    ensures vector { (problem : Problem) (T : List (List Sym)) (v : List ℕ) → IsOptimal problem T
        → length v ≡ last_stage problem
        →
        ((r : ℕ) → 1 ≤ r → r ≤ last_stage problem
        → count_at problem r T ≡ slice_index_or v (r - 1) 0) → IsLeastVector problem v }
    ensures fewer { (problem : Problem) (T : List (List Sym)) (r s : ℕ) → r ≤ s
        → IsOptimalFor problem s T → IsOptimalFor problem r T }
{}
