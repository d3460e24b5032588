//! Optimal candidates, what remains, kinds of a stage, and the first of a set, on the smallest
//! cases.
ghost use Rattle.std.specs.Prelude.{◌≡◌, [], ◌∷◌, String, codes};
ghost use Rattle.std.specs.declared.alloc.Global.{Global};
ghost use Rattle.tier_core.specs.Orders.{IsFirst};
ghost use Rattle.violation.specs.Candidates.{IsCandidate, IsAtMost, IsOptimalFor, IsOptimal, IsLeastVector};
ghost use Rattle.violation.specs.Stages.{IsKindOfStage, AreKindsOfStage, IsRemaining};
ghost use Rattle.violation.specs.Examples.{timeline, two_tiers, max_a, read_kind};
ghost use Rattle.violation.specs.Examples.{over_two};

/// Vectors are compared from the highest constraint on.
pub fn compared_vectors()
    ensures higher_first { IsAtMost (0 ∷ 9 ∷ []) (1 ∷ 0 ∷ []) }
    ensures then_lower { IsAtMost (1 ∷ 2 ∷ []) (1 ∷ 3 ∷ []) }
    ensures same { IsAtMost (1 ∷ 2 ∷ []) (1 ∷ 2 ∷ []) }
    ensures not_by_sum { IsAtMost (1 ∷ 0 ∷ []) (0 ∷ 9 ∷ []) → ⊥ }
{}

/// Under `A -> a` the candidate `[[ ]]` of the form `[ ]` is optimal, and `[- ]-` is only
/// 0-optimal.
pub fn optimal_candidates()
    ensures zero_optimal { (max : String Global)
        → IsOptimalFor (over_two (max_a max ∷ []) (timeline (codes "[ ]"))) 0
        (timeline (codes "[- ]-")) }
    ensures not_one_optimal { (max : String Global)
        → IsOptimalFor (over_two (max_a max ∷ []) (timeline (codes "[ ]"))) 1
        (timeline (codes "[- ]-")) → ⊥ }
    ensures optimal { (max : String Global)
        → IsOptimal (over_two (max_a max ∷ []) (timeline (codes "[ ]")))
        (timeline (codes "[[ ]]")) }
    ensures no_candidate { (max : String Global)
        → IsOptimal (over_two (max_a max ∷ []) (timeline (codes "[ ]")))
        (timeline (codes "-[ -]")) → ⊥ }
{}

/// The least vector of `[ ]` under `A -> a` is 0, and no other.
pub fn least_vectors()
    ensures none { (max : String Global)
        → IsLeastVector (over_two (max_a max ∷ []) (timeline (codes "[ ]"))) (0 ∷ []) }
    ensures one { (max : String Global)
        → IsLeastVector (over_two (max_a max ∷ []) (timeline (codes "[ ]"))) (1 ∷ []) → ⊥ }
    ensures without_constraints { IsLeastVector (over_two [] []) [] }
{}

/// At stage 0 nothing remains. At stage 1 nothing remains of `A -> a` from the kind of the empty
/// prefix of `[ ]`.
pub fn remaining_violations()
    ensures stage_zero { IsRemaining (over_two [] []) 0 (read_kind 0 (codes "-") []) 0 }
    ensures not_one { IsRemaining (over_two [] []) 0 (read_kind 0 (codes "-") []) 1 → ⊥ }
    ensures stage_one { (max : String Global)
        → IsRemaining (over_two (max_a max ∷ []) (timeline (codes "[ ]"))) 1
        (read_kind 0 (codes "-") (codes ".")) 0 }
    ensures not_more { (max : String Global)
        → IsRemaining (over_two (max_a max ∷ []) (timeline (codes "[ ]"))) 1
        (read_kind 0 (codes "-") (codes ".")) 1 → ⊥ }
{}

/// The empty form has two kinds at stage 0: the overt tier is open or not. They are in kind order.
pub fn kinds_of_the_empty_form()
    ensures both { AreKindsOfStage (over_two [] []) 0
        (read_kind 0 (codes "-") [] ∷ read_kind 0 (codes "+") [] ∷ []) }
    ensures one_missing { AreKindsOfStage (over_two [] []) 0 (read_kind 0 (codes "-") [] ∷ []) → ⊥ }
    ensures not_in_order { AreKindsOfStage (over_two [] []) 0
        (read_kind 0 (codes "+") [] ∷ read_kind 0 (codes "-") [] ∷ []) → ⊥ }
    ensures no_such_place { IsKindOfStage (over_two [] []) 0 (read_kind 1 (codes "-") []) → ⊥ }
{}

/// The first candidate of the empty form has no columns.
pub fn first_candidates()
    ensures empty { IsFirst (IsCandidate (over_two [] [])) [] }
    ensures not_longer { IsFirst (IsCandidate (over_two [] [])) (timeline (codes "-[ -]")) → ⊥ }
{}
