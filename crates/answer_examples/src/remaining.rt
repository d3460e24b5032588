ghost use Rattle.std.specs.Prelude.{◌≡◌, [], ◌∷◌, String, codes};
ghost use Rattle.std.specs.declared.alloc.Global.{Global};
ghost use Rattle.violation.specs.Examples.{over_two, dep_a, read_kind};
ghost use Rattle.violation.specs.Stages.{IsRemaining};

/// Under `a -> A` one violation remains from the kind of the empty form in which the overt tier is
/// open and unmet: however a continues, its end is counted.
pub fn one_violation_remains()
    ensures one { (dep : String Global) → IsRemaining (over_two (dep_a dep ∷ []) []) 1
        (read_kind 0 (codes "+") (codes "u")) 1 }
    ensures not_none { (dep : String Global) → IsRemaining (over_two (dep_a dep ∷ []) []) 1
        (read_kind 0 (codes "+") (codes "u")) 0 → ⊥ }
{}
