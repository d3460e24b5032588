ghost use Rattle.std.specs.Prelude.{◌≤◌, List, length};
ghost use Rattle.std.specs.List.{AllByRecursion};
ghost use Rattle.tier_core.specs.declared.sym.Sym.{Sym};
ghost use Rattle.tier_core.specs.declared.constraint.Constraint.{Constraint};
ghost use Rattle.tier_core.specs.Tiers.{Tiers};
ghost use Rattle.violation.specs.Candidates.{IsForm};
ghost use Rattle.violation.specs.Conditions.{AreSplit, IsOverTiers};
ghost use Rattle.answer_text.specs.declared.answer.Answer.{Answer};
ghost use Rattle.answer_text.specs.Right.{IsRight};
ghost use Rattle.answer_text.specs.Sound.{IsSound};
ghost use Rattle.answer_text.specs.Certified.{IsCertified};
ghost use Rattle.violation.specs.Problems.{Problem, last_place};

/// A right answer is sound.
pub fn right_answers_are_sound()
    ensures { (problem : Problem) (answer : Answer) → IsRight problem answer
        → IsSound problem answer }
{}

/// A right answer to a form of at most 64 columns is certified: what remains at its kinds is a
/// potential, and a move is kept at the end exactly if some optimal candidate goes on by it.
pub fn right_answers_are_certified()
    ensures { (problem : Problem) (answer : Answer) → AreSplit problem.tiers
        → AllByRecursion (IsOverTiers problem.tiers.width) problem.constraints
        → IsForm problem.tiers problem.form → last_place problem ≤ 64 → IsRight problem answer
        → IsCertified problem answer }
{}
