ghost use Rattle.std.specs.Prelude.{ℕ, ◌≡◌, ◌≤◌, List, ◌++◌};
ghost use Rattle.tier_core.specs.declared.sym.Sym.{Sym};
ghost use Rattle.violation.specs.Candidates.{IsCandidate, IsOptimalFor};
ghost use Rattle.violation.specs.Prefixes.{kind_of};
ghost use Rattle.violation.specs.Problems.{Problem};
ghost use Rattle.violation.specs.Stages.{IsStage};
ghost use Rattle.kind_laws.specs.Follows.{Adds};

/// Prefixes of candidates that have one kind under the first r constraints may exchange what
/// follows them: the result is a candidate, and it is r-optimal if both are. What follows a prefix
/// adds the same number to the count of each of these constraints for every such prefix.
pub fn prefixes_of_one_kind_go_on_alike()
    ensures candidate { (problem : Problem) (r : ℕ) → IsStage problem r
        → (p q v w : List (List Sym)) → IsCandidate problem (p ++ q)
        → IsCandidate problem (v ++ w) → kind_of problem r p ≡ kind_of problem r v
        → IsCandidate problem (p ++ w) }
    ensures optimal { (problem : Problem) (r : ℕ) → IsStage problem r
        → (p q v w : List (List Sym)) → IsOptimalFor problem r (p ++ q)
        → IsOptimalFor problem r (v ++ w) → kind_of problem r p ≡ kind_of problem r v
        → IsOptimalFor problem r (p ++ w) }
    ensures some { (problem : Problem) (r : ℕ) → IsStage problem r → 1 ≤ r
        → (v w : List (List Sym)) → IsCandidate problem (v ++ w)
        → (m : ℕ) × Adds problem r v w m }
    ensures same { (problem : Problem) (r : ℕ) → IsStage problem r → (i : ℕ) → 1 ≤ i → i ≤ r
        → (p q v w : List (List Sym)) → IsCandidate problem (p ++ q)
        → IsCandidate problem (v ++ w) → kind_of problem r p ≡ kind_of problem r v
        → (m : ℕ) → Adds problem i v w m → Adds problem i p w m }
{}
