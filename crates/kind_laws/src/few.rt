ghost use Rattle.std.specs.Prelude.{ℕ, ◌+◌, ◌*◌, ◌^◌, ◌≤◌, List, length};
ghost use Rattle.tier_core.specs.Kinds.{PrefixKind};
ghost use Rattle.violation.specs.Prefixes.{stretches};
ghost use Rattle.violation.specs.Problems.{Problem, last_stage, last_place};
ghost use Rattle.violation.specs.Stages.{IsStage, AreKindsOfStage};

/// A stage has at most (columns of the form + 1) * 2^(free tiers) * 2^(stretch implications) kinds,
/// counting only the stretch implications that the stage looks at. No stage has more than all
/// stretch implications allow.
pub fn stages_have_few_kinds()
    ensures of_stage { (problem : Problem) (r : ℕ) → IsStage problem r → (ks : List PrefixKind)
        → AreKindsOfStage problem r ks
        → length ks ≤ (last_place problem + 1) * 2 ^ length problem.tiers.free
        * 2 ^ length (stretches problem r) }
    ensures of_all { (problem : Problem) (r : ℕ) → IsStage problem r → (ks : List PrefixKind)
        → AreKindsOfStage problem r ks
        → length ks ≤ (last_place problem + 1) * 2 ^ length problem.tiers.free
        * 2 ^ length (stretches problem (last_stage problem)) }
{}
