ghost use Rattle.std.specs.Prelude.{ℕ, ◌≡◌, ◌≤◌, List, ◌++◌, length};
ghost use Rattle.tier_core.specs.declared.sym.Sym.{Sym};
ghost use Rattle.tier_core.specs.declared.constraint.Constraint.{Constraint};
ghost use Rattle.tier_core.specs.Timelines.{IsWellFormed};
ghost use Rattle.violation.specs.Conditions.{IsOverTiers};
ghost use Rattle.violation.specs.Counts.{violations_so_far};

/// The violations so far of a prefix are the same whatever well-formed timeline it begins.
pub fn prefixes_count_alone()
    ensures { (width : ℕ) (c : Constraint) → IsOverTiers width c → (p q w : List (List Sym))
        → IsWellFormed width (p ++ q) → IsWellFormed width (p ++ w) → (n : ℕ) → n ≤ length p
        → violations_so_far c (p ++ q) n ≡ violations_so_far c (p ++ w) n }
{}
