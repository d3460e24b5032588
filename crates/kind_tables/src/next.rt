ghost use Rattle.std.specs.Prelude.{◌≡◌, ℕ, ◌+◌, ◌<◌, ◌≤◌, ◌↔◌, List, length};
ghost use Rattle.weight_law.specs.declared.count.Count.{Count};
ghost use Rattle.tier_core.specs.declared.sym.Sym.{Sym};
ghost use Rattle.tier_core.specs.declared.constraint.Constraint.{Constraint};
ghost use Rattle.tier_core.specs.Tiers.{Tiers};
ghost use Rattle.tier_core.specs.Kinds.{PrefixKind};
ghost use Rattle.arc_table.specs.declared.state.TableState.{TableState};
ghost use Rattle.arc_table.specs.Runs.{Accepts, IsOnRun};
ghost use Rattle.violation.specs.Candidates.{IsCandidate, IsOptimalFor};
ghost use Rattle.violation.specs.Moves.{FitsKind, next_kind, is_final, cut_kind};
ghost use Rattle.violation.specs.Prefixes.{kind_of};
ghost use Rattle.kind_tables.specs.StageTables.{AreNamedByKinds, AreWeighed, IsStageTable};
ghost use Rattle.violation.specs.Problems.{Problem};

use weight_law::{Count, Weight};

/// A table that is named and weighed by kinds, each of whose states is on a run, and that accepts
/// the candidates that the constraints before have left is a stage's table: at first all
/// candidates, and then those that the last stage left.
pub fn named_tables_are_stage_tables()
    ensures first { (problem : Problem) (names : List PrefixKind)
        (states : List (TableState Count ⟦<Count as Weight>⟧))
        → AreNamedByKinds problem 0 names states → AreWeighed problem 0 names states
        → ((T : List (List Sym)) → Accepts states T ↔ IsCandidate problem T)
        → ((s : ℕ) → s < length states → IsOnRun states s)
        → IsStageTable problem 0 names states }
    ensures next { (problem : Problem) (r : ℕ) (names : List PrefixKind)
        (states : List (TableState Count ⟦<Count as Weight>⟧))
        → AreNamedByKinds problem (r + 1) names states → AreWeighed problem (r + 1) names states
        → ((T : List (List Sym)) → Accepts states T ↔ IsOptimalFor problem r T)
        → ((s : ℕ) → s < length states → IsOnRun states s)
        → IsStageTable problem (r + 1) names states }
{}

/// Kinds that are cut to fewer constraints go by the same columns as the whole ones, are final
/// when those are, and lead to what the whole ones lead to, cut. The kind of a prefix is cut to
/// its kind.
pub fn cut_kinds_go_alike()
    ensures moves { (problem : Problem) (r s : ℕ) (k : PrefixKind) (column : List Sym) → r ≤ s
        → cut_kind problem r (next_kind problem s k column)
        ≡ next_kind problem r (cut_kind problem r k) column }
    ensures fits { (problem : Problem) (r : ℕ) (k : PrefixKind) (column : List Sym)
        → FitsKind problem (cut_kind problem r k) column ↔ FitsKind problem k column }
    ensures ends { (problem : Problem) (r : ℕ) (k : PrefixKind)
        → is_final problem (cut_kind problem r k) ≡ is_final problem k }
    ensures prefixes { (problem : Problem) (r s : ℕ) (p : List (List Sym)) → r ≤ s
        → cut_kind problem r (kind_of problem s p) ≡ kind_of problem r p }
{}
