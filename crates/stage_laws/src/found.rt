ghost use Rattle.std.specs.Prelude.{◌≡◌, ℕ, ◌+◌, ◌<◌, ◌≤◌, ◌↔◌, List, length, take, Contains};
ghost use Rattle.weight_law.specs.declared.count.Count.{Count};
ghost use Rattle.weight_law.specs.declared.unit_weight.UnitWeight.{UnitWeight};
ghost use Rattle.tier_core.specs.declared.sym.Sym.{Sym};
ghost use Rattle.tier_core.specs.Kinds.{PrefixKind};
ghost use Rattle.arc_table.specs.declared.arc.TableArc.{TableArc};
ghost use Rattle.arc_table.specs.declared.state.TableState.{TableState};
ghost use Rattle.arc_table.specs.Runs.{IsPath, Reads};
ghost use Rattle.arc_table.specs.States.{states_of};
ghost use Rattle.prune_best.specs.declared.tight_table.Tight.{Tight};
ghost use Rattle.prune_best.specs.Tight.{IsTight};
ghost use Rattle.violation.specs.Candidates.{IsOptimalFor};
ghost use Rattle.violation.specs.Prefixes.{kind_of};
ghost use Rattle.violation.specs.Problems.{Problem};
ghost use Rattle.violation.specs.Stages.{IsPassed};
ghost use Rattle.kind_tables.specs.StageTables.{IsStage, name_of, AreNamedByKinds, AreWeighed, IsStageTable};
ghost use Rattle.kind_tables.specs.FoundTables.{names_kept, AreFoundFrom};

use weight_law::{Count, UnitWeight, Weight};

/// The states of a pruned table are named by the kinds that name them in the table that it was
/// pruned from. If that is a stage's table, these are the kinds that the r-optimal candidates pass
/// through, and each prefix of one is read by a path from the start to the state of its kind.
pub fn pruned_tables_keep_their_names()
    ensures named { (problem : Problem) (r : ℕ) (names : List PrefixKind)
        (states : List (TableState Count ⟦<Count as Weight>⟧)) → IsStage problem r
        → AreNamedByKinds problem r names states → (tight : Tight)
        → IsTight states (states_of tight.table) tight.states.items
        → AreNamedByKinds problem r (names_kept names tight.states.items)
        (states_of tight.table) }
    ensures kinds { (problem : Problem) (r : ℕ) (names : List PrefixKind)
        (states : List (TableState Count ⟦<Count as Weight>⟧)) → IsStage problem r
        → IsStageTable problem r names states → (tight : Tight)
        → IsTight states (states_of tight.table) tight.states.items → (k : PrefixKind)
        → Contains (names_kept names tight.states.items) k ↔ IsPassed problem r r k }
    ensures prefixes { (problem : Problem) (r : ℕ) (names : List PrefixKind)
        (states : List (TableState Count ⟦<Count as Weight>⟧)) → IsStage problem r
        → IsStageTable problem r names states → (tight : Tight)
        → IsTight states (states_of tight.table) tight.states.items
        → (T : List (List Sym)) (n : ℕ) → IsOptimalFor problem r T → n ≤ length T
        → (s : ℕ)
        ×
        ((arcs : List (TableArc UnitWeight ⟦<UnitWeight as Weight>⟧))
        × IsPath (states_of tight.table) 0 arcs s × Reads arcs (take n T))
        ×
        ((s < length (states_of tight.table))
        × (name_of (names_kept names tight.states.items) s ≡ kind_of problem r (take n T))) }
{}

/// A table that is found from the pruned table of a stage, by going on by kinds under one more
/// constraint, and weighed by the costs under it, is the table of the next stage.
pub fn found_tables_are_the_next()
    ensures { (problem : Problem) (r : ℕ) (names : List PrefixKind)
        (states : List (TableState Count ⟦<Count as Weight>⟧)) → IsStage problem r
        → IsStageTable problem r names states → (tight : Tight)
        → IsTight states (states_of tight.table) tight.states.items
        → (bases : List ℕ) (kinds : List PrefixKind)
        (found : List (TableState Count ⟦<Count as Weight>⟧))
        → AreFoundFrom problem r (r + 1) (names_kept names tight.states.items)
        (states_of tight.table) bases kinds found → AreWeighed problem (r + 1) kinds found
        → IsStageTable problem (r + 1) kinds found }
{}
