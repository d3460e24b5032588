ghost use Rattle.std.specs.Prelude.{ℕ, ◌≡◌, ◌<◌, ◌≤◌, ◌↔◌, List, length, take, Contains};
ghost use Rattle.weight_law.specs.declared.ranked.Ranked.{Ranked};
ghost use Rattle.weight_law.specs.declared.unit_weight.UnitWeight.{UnitWeight};
ghost use Rattle.weight_law.specs.Ranked.{IsOfVector};
ghost use Rattle.tier_core.specs.declared.sym.Sym.{Sym};
ghost use Rattle.tier_core.specs.Kinds.{PrefixKind};
ghost use Rattle.arc_table.specs.declared.arc.TableArc.{TableArc};
ghost use Rattle.arc_table.specs.declared.state.TableState.{TableState};
ghost use Rattle.arc_table.specs.Runs.{IsPath, Reads, Accepts, IsLeastWord, IsLeastFrom};
ghost use Rattle.arc_table.specs.States.{states_of};
ghost use Rattle.prune_best.specs.declared.tight_table.Tight.{Tight};
ghost use Rattle.prune_best.specs.Tight.{IsTight};
ghost use Rattle.violation.specs.Candidates.{IsOptimal, IsLeastVector};
ghost use Rattle.violation.specs.Prefixes.{kind_of};
ghost use Rattle.violation.specs.Problems.{Problem, last_stage};
ghost use Rattle.violation.specs.Rests.{IsWholeKind, IsLeastRestVector};
ghost use Rattle.violation.specs.Stages.{IsPassed};
ghost use Rattle.kind_tables.specs.StageTables.{name_of};
ghost use Rattle.kind_tables.specs.FoundTables.{names_kept};
ghost use Rattle.kind_tables.specs.RankedTables.{IsSinglePass};

use weight_law::{Ranked, UnitWeight, Weight};

/// The words of least weight of the table of a single pass are exactly the optimal candidates. Pruned to
/// these words it accepts them, the kinds of its states are those that they pass, and each prefix of one
/// is read by a path from the start to the state of its kind.
pub fn words_of_least_vectors_are_optimal()
    ensures least_words { (problem : Problem) (names : List PrefixKind)
        (states : List (TableState Ranked ⟦<Ranked as Weight>⟧))
        → IsSinglePass problem names states → (T : List (List Sym)) → IsLeastWord states T
        ↔ IsOptimal problem T }
    ensures pruned { (problem : Problem) (names : List PrefixKind)
        (states : List (TableState Ranked ⟦<Ranked as Weight>⟧))
        → IsSinglePass problem names states → (tight : Tight)
        → IsTight states (states_of tight.table) tight.states.items → (T : List (List Sym))
        → Accepts (states_of tight.table) T ↔ IsOptimal problem T }
    ensures kinds { (problem : Problem) (names : List PrefixKind)
        (states : List (TableState Ranked ⟦<Ranked as Weight>⟧))
        → IsSinglePass problem names states → (tight : Tight)
        → IsTight states (states_of tight.table) tight.states.items → (k : PrefixKind)
        → Contains (names_kept names tight.states.items) k
        ↔ IsPassed problem (last_stage problem) (last_stage problem) k }
    ensures prefixes { (problem : Problem) (names : List PrefixKind)
        (states : List (TableState Ranked ⟦<Ranked as Weight>⟧))
        → IsSinglePass problem names states → (tight : Tight)
        → IsTight states (states_of tight.table) tight.states.items
        → (T : List (List Sym)) (n : ℕ) → IsOptimal problem T → n ≤ length T
        → (s : ℕ)
        ×
        ((arcs : List (TableArc UnitWeight ⟦<UnitWeight as Weight>⟧))
        × IsPath (states_of tight.table) 0 arcs s × Reads arcs (take n T))
        ×
        ((s < length (states_of tight.table))
        ×
        (name_of (names_kept names tight.states.items) s
        ≡ kind_of problem (last_stage problem) (take n T))) }
{}

/// The names of the table of a single pass are exactly the kinds under all constraints of prefixes of
/// candidates. The least weight from the start is the least vector, and that from a state is the least
/// vector that remains from its name.
pub fn least_vectors_remain()
    ensures names { (problem : Problem) (names : List PrefixKind)
        (states : List (TableState Ranked ⟦<Ranked as Weight>⟧))
        → IsSinglePass problem names states → (k : PrefixKind) → Contains names k
        ↔ IsWholeKind problem k }
    ensures from_start { (problem : Problem) (names : List PrefixKind)
        (states : List (TableState Ranked ⟦<Ranked as Weight>⟧))
        → IsSinglePass problem names states → (w : Ranked) → IsLeastFrom states 0 w
        → (v : List ℕ) × (IsOfVector w v × IsLeastVector problem v) }
    ensures from_state { (problem : Problem) (names : List PrefixKind)
        (states : List (TableState Ranked ⟦<Ranked as Weight>⟧))
        → IsSinglePass problem names states → (s : ℕ) (w : Ranked) → IsLeastFrom states s w
        → (v : List ℕ) × (IsOfVector w v × IsLeastRestVector problem (name_of names s) v) }
{}
