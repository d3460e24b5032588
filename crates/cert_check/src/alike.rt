ghost use Rattle.std.specs.Prelude.{ℕ, ◌≡◌, List};
ghost use Rattle.tier_core.specs.declared.sym.Sym.{Sym};
ghost use Rattle.tier_core.specs.Kinds.{PrefixKind};
ghost use Rattle.violation.specs.Moves.{next_kind, cost_of};
ghost use Rattle.violation.specs.Problems.{Problem};
ghost use Rattle.cert_check.specs.Alike.{AreAlike};

/// On columns that are alike, moves lead to one kind and cost the same. So a checker looks at one of
/// them alone.
pub fn alike_columns_move_alike()
    ensures moved { (problem : Problem) (place : ℕ) (c d : List Sym) → AreAlike problem place c d
        → (r : ℕ) (k : PrefixKind) → next_kind problem r k c ≡ next_kind problem r k d }
    ensures cost { (problem : Problem) (place : ℕ) (c d : List Sym) → AreAlike problem place c d
        → (r : ℕ) (k : PrefixKind) → cost_of problem r k c ≡ cost_of problem r k d }
{}
