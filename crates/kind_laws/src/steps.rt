ghost use Rattle.std.specs.Prelude.{ℕ, ◌-◌, ◌≤◌, ◌↔◌, List};
ghost use Rattle.tier_core.specs.declared.sym.Sym.{Sym};
ghost use Rattle.violation.specs.Candidates.{IsOptimalFor};
ghost use Rattle.violation.specs.Problems.{Problem};
ghost use Rattle.violation.specs.Stages.{IsStage};
ghost use Rattle.kind_laws.specs.Steps.{HasTightSteps};

/// From stage 1 on, a timeline is r-optimal exactly if it is (r-1)-optimal and each of its steps is
/// tight: what remains of constraint r falls by exactly what each column costs.
pub fn optimal_candidates_go_by_tight_steps()
    ensures { (problem : Problem) (r : ℕ) → IsStage problem r → 1 ≤ r → (T : List (List Sym))
        → IsOptimalFor problem r T ↔ (IsOptimalFor problem (r - 1) T × HasTightSteps problem r T) }
{}
