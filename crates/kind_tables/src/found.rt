ghost use Rattle.std.specs.Prelude.{◌≡◌, ℕ, ◌<◌, ◌≤◌, ◌↔◌, List, length, Contains, IsTrue};
ghost use Rattle.weight_law.specs.declared.count.Count.{Count};
ghost use Rattle.weight_law.specs.declared.unit_weight.UnitWeight.{UnitWeight};
ghost use Rattle.tier_core.specs.declared.sym.Sym.{Sym};
ghost use Rattle.tier_core.specs.Classes.{has};
ghost use Rattle.tier_core.specs.Kinds.{PrefixKind};
ghost use Rattle.arc_table.specs.declared.arc.TableArc.{TableArc};
ghost use Rattle.arc_table.specs.declared.state.TableState.{TableState};
ghost use Rattle.arc_table.specs.Moves.{moves_at};
ghost use Rattle.arc_table.specs.Runs.{Accepts, IsOnRun};
ghost use Rattle.violation.specs.Moves.{FitsKind, next_kind, cut_kind};
ghost use Rattle.violation.specs.Problems.{Problem};
ghost use Rattle.kind_tables.specs.StageTables.{IsStage, name_of, AreNamedByKinds};
ghost use Rattle.kind_tables.specs.FoundTables.{AreFoundFrom};

use weight_law::{Count, UnitWeight, Weight};

/// A kind whose cut names a state of a pruned table goes by the columns of this state's moves, and
/// leads to a kind whose cut names the target.
pub fn cut_kinds_go_by_pruned_moves()
    ensures fits { (problem : Problem) (r : ℕ) (names : List PrefixKind)
        (pruned : List (TableState UnitWeight ⟦<UnitWeight as Weight>⟧))
        → AreNamedByKinds problem r names pruned
        → (k : PrefixKind) (base : ℕ) (arc : TableArc UnitWeight ⟦<UnitWeight as Weight>⟧)
        (column : List Sym) → cut_kind problem r k ≡ name_of names base
        → Contains (moves_at pruned base) arc → IsTrue (has arc.class column)
        → FitsKind problem k column }
    ensures leads { (problem : Problem) (r n : ℕ) (names : List PrefixKind)
        (pruned : List (TableState UnitWeight ⟦<UnitWeight as Weight>⟧)) → r ≤ n
        → AreNamedByKinds problem r names pruned
        → (k : PrefixKind) (base : ℕ) (arc : TableArc UnitWeight ⟦<UnitWeight as Weight>⟧)
        (column : List Sym) → cut_kind problem r k ≡ name_of names base
        → Contains (moves_at pruned base) arc → IsTrue (has arc.class column)
        → cut_kind problem r (next_kind problem n k column) ≡ name_of names arc.target }
{}

/// A table that is found from another one, by going on by kinds under more constraints, is named by
/// these kinds and accepts the same words, and its states are on runs if those of the other table
/// are.
pub fn found_tables_go_as_kinds()
    ensures named { (problem : Problem) (r n : ℕ) (names : List PrefixKind)
        (pruned : List (TableState UnitWeight ⟦<UnitWeight as Weight>⟧)) → r ≤ n
        → IsStage problem r → AreNamedByKinds problem r names pruned
        → (bases : List ℕ) (kinds : List PrefixKind)
        (found : List (TableState Count ⟦<Count as Weight>⟧))
        → AreFoundFrom problem r n names pruned bases kinds found
        → AreNamedByKinds problem n kinds found }
    ensures words { (problem : Problem) (r n : ℕ) (names : List PrefixKind)
        (pruned : List (TableState UnitWeight ⟦<UnitWeight as Weight>⟧)) → r ≤ n
        → IsStage problem r → AreNamedByKinds problem r names pruned
        → (bases : List ℕ) (kinds : List PrefixKind)
        (found : List (TableState Count ⟦<Count as Weight>⟧))
        → AreFoundFrom problem r n names pruned bases kinds found → (T : List (List Sym))
        → Accepts found T ↔ Accepts pruned T }
    ensures on_runs { (problem : Problem) (r n : ℕ) (names : List PrefixKind)
        (pruned : List (TableState UnitWeight ⟦<UnitWeight as Weight>⟧)) → r ≤ n
        → IsStage problem r → AreNamedByKinds problem r names pruned
        → (bases : List ℕ) (kinds : List PrefixKind)
        (found : List (TableState Count ⟦<Count as Weight>⟧))
        → AreFoundFrom problem r n names pruned bases kinds found
        → ((b : ℕ) → b < length pruned → IsOnRun pruned b) → (s : ℕ) → s < length found
        → IsOnRun found s }
{}
