ghost use Rattle.std.specs.Prelude.{◌≡◌, ℕ, ◌↔◌, List, Contains};
ghost use Rattle.weight_law.specs.declared.count.Count.{Count};
ghost use Rattle.tier_core.specs.declared.sym.Sym.{Sym};
ghost use Rattle.tier_core.specs.declared.constraint.Constraint.{Constraint};
ghost use Rattle.tier_core.specs.Tiers.{Tiers};
ghost use Rattle.tier_core.specs.Kinds.{PrefixKind};
ghost use Rattle.arc_table.specs.declared.arc.TableArc.{TableArc};
ghost use Rattle.arc_table.specs.declared.state.TableState.{TableState};
ghost use Rattle.arc_table.specs.Runs.{IsPath, Reads};
ghost use Rattle.violation.specs.Prefixes.{kind_of};
ghost use Rattle.violation.specs.Stages.{IsKindOfStage};
ghost use Rattle.kind_tables.specs.StageTables.{IsStage, IsStageTable, name_of};
ghost use Rattle.violation.specs.Problems.{Problem};

use weight_law::{Count, Weight};

/// The names of a stage's table are exactly the kinds of the stage. A path from the start that
/// reads some columns ends at the state that is named by their kind.
pub fn names_are_kinds()
    ensures paths { (problem : Problem) (r : ℕ) (names : List PrefixKind)
        (states : List (TableState Count ⟦<Count as Weight>⟧)) → IsStage problem r
        → IsStageTable problem r names states
        → (arcs : List (TableArc Count ⟦<Count as Weight>⟧)) (s : ℕ) (p : List (List Sym))
        → IsPath states 0 arcs s → Reads arcs p → name_of names s ≡ kind_of problem r p }
    ensures names { (problem : Problem) (r : ℕ) (names : List PrefixKind)
        (states : List (TableState Count ⟦<Count as Weight>⟧)) → IsStage problem r
        → IsStageTable problem r names states → (k : PrefixKind) → Contains names k
        ↔ IsKindOfStage problem r k }
{}
