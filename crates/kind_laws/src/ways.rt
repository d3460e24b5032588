ghost use Rattle.std.specs.Prelude.{ℕ, ◌+◌, ◌<◌, ◌≤◌, List, ◌++◌, length, Contains};
ghost use Rattle.tier_core.specs.declared.sym.Sym.{Sym};
ghost use Rattle.tier_core.specs.declared.constraint.Constraint.{Constraint};
ghost use Rattle.tier_core.specs.Kinds.{PrefixKind};
ghost use Rattle.tier_core.specs.Orders.{IsFirst};
ghost use Rattle.tier_core.specs.Timelines.{IsWellFormed};
ghost use Rattle.violation.specs.Candidates.{IsOptimalFor};
ghost use Rattle.violation.specs.Conditions.{IsOverTiers};
ghost use Rattle.violation.specs.Counts.{violations_of, violations_so_far};
ghost use Rattle.violation.specs.Problems.{Problem};
ghost use Rattle.violation.specs.Stages.{AreKindsOfStage, IsRemaining, IsStage};
ghost use Rattle.kind_laws.specs.Ways.{HasEachPassed, IsDirectWay};

/// Each column adds at most 1 to what a constraint counts. So no timeline violates a constraint more
/// often than it has columns.
pub fn columns_add_one_at_most()
    ensures column { (width : ℕ) (c : Constraint) → IsOverTiers width c → (T : List (List Sym))
        → IsWellFormed width T → (n : ℕ) → n < length T
        → violations_so_far c T (n + 1) ≤ violations_so_far c T n + 1 }
    ensures whole { (width : ℕ) (c : Constraint) → IsOverTiers width c → (T : List (List Sym))
        → IsWellFormed width T → violations_of c T ≤ length T }
{}

/// If some columns go on from a prefix to an r-optimal candidate, then no more columns do so that pass
/// no kind twice. A way that passes no kind twice has fewer columns than there are kinds.
pub fn shortest_ways_pass_no_kind_twice()
    ensures direct { (problem : Problem) (r s : ℕ) → IsStage problem s → r ≤ s
        → (p q : List (List Sym)) → IsOptimalFor problem r (p ++ q)
        → (way : List (List Sym)) × (length way ≤ length q × IsDirectWay problem r s p way) }
    ensures short { (problem : Problem) (r s : ℕ) → IsStage problem s
        → (p way : List (List Sym)) → IsDirectWay problem r s p way → (ks : List PrefixKind)
        → HasEachPassed problem r s ks → length way < length ks }
{}

/// The first r-optimal candidate has fewer columns than there are kinds of prefixes of r-optimal
/// candidates under the first r constraints.
pub fn first_candidates_are_short()
    ensures { (problem : Problem) (r : ℕ) → IsStage problem r → (T : List (List Sym))
        → IsFirst (IsOptimalFor problem r) T → (ks : List PrefixKind)
        → HasEachPassed problem r r ks → length T < length ks }
{}

/// What remains to be counted from a kind is less than the number of the kinds of its stage.
pub fn remaining_counts_are_small()
    ensures { (problem : Problem) (r : ℕ) → IsStage problem r → (ks : List PrefixKind)
        → AreKindsOfStage problem r ks → (k : PrefixKind) → Contains ks k → (m : ℕ)
        → IsRemaining problem r k m → m < length ks }
{}
