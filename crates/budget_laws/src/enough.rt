ghost use Rattle.std.specs.Prelude.{ℕ, ◌≡◌, ◌≤◌, List, [], ◌∷◌, length};
ghost use Rattle.std.specs.List.{AllByRecursion};
ghost use Rattle.tier_core.specs.declared.sym.Sym.{Sym};
ghost use Rattle.tier_core.specs.declared.constraint.Constraint.{Constraint};
ghost use Rattle.tier_core.specs.Tables.{tiers_of_table};
ghost use Rattle.grammar_reader.specs.declared.grammar.Grammar.{Grammar};
ghost use Rattle.violation.specs.Candidates.{IsForm};
ghost use Rattle.violation.specs.Conditions.{AreSplit, IsOverTiers};
ghost use Rattle.violation.specs.Examples.{over_two};
ghost use Rattle.violation.specs.Prefixes.{stretches};
ghost use Rattle.violation.specs.Problems.{Problem, problem_from, last_stage, last_place};
ghost use Rattle.ranked_gen.specs.Budgets.{AreAllWithin, IsFirstOver};
ghost use Rattle.budget_laws.specs.Enough.{enough};

/// A budget of (columns of the form + 1) * 2^(free tiers) * 2^(stretch implications) is always
/// enough: all stages are within it, so no stage is the first to exceed it. The conditions on a
/// problem hold for every grammar. For a form of at most 64 columns, with at most 8 free tiers and
/// no stretch implication, 16,640 kinds are enough.
pub fn stages_are_within_enough()
    ensures within { (problem : Problem) (budget : ℕ) → AreSplit problem.tiers
        → IsForm problem.tiers problem.form
        → AllByRecursion (IsOverTiers problem.tiers.width) problem.constraints
        → enough problem ≤ budget → AreAllWithin problem budget }
    ensures never_over { (problem : Problem) (budget stage : ℕ) → AreSplit problem.tiers
        → IsForm problem.tiers problem.form
        → AllByRecursion (IsOverTiers problem.tiers.width) problem.constraints
        → enough problem ≤ budget → IsFirstOver problem budget stage → ⊥ }
    ensures without_stretches { (problem : Problem) → AreSplit problem.tiers
        → IsForm problem.tiers problem.form
        → AllByRecursion (IsOverTiers problem.tiers.width) problem.constraints
        → last_place problem ≤ 64 → length problem.tiers.free ≤ 8
        → length (stretches problem (last_stage problem)) ≡ 0
        → AreAllWithin problem 16640 }
    ensures of_grammars { (grammar : Grammar) (form : List (List Sym)) (budget : ℕ)
        → IsForm (tiers_of_table grammar.tiers) form
        → enough (problem_from grammar.tiers grammar.constraints.items form) ≤ budget
        → AreAllWithin (problem_from grammar.tiers grammar.constraints.items form) budget }
{}

/// Without constraints, stage 0 of the empty form, over an input tier and an overt tier, is the
/// first stage to exceed a budget of 1, and is within a budget of 2.
pub fn first_stage_over_a_budget()
    ensures over { IsFirstOver (over_two [] []) 1 0 }
    ensures within { AreAllWithin (over_two [] []) 2 }
{}
