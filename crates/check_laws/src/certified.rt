ghost use Rattle.std.specs.Prelude.{List};
ghost use Rattle.std.specs.List.{AllByRecursion};
ghost use Rattle.tier_core.specs.declared.constraint.Constraint.{Constraint};
ghost use Rattle.tier_core.specs.Tiers.{Tiers};
ghost use Rattle.violation.specs.Conditions.{AreSplit, IsOverTiers};
ghost use Rattle.answer_text.specs.declared.answer.Answer.{Answer};
ghost use Rattle.answer_text.specs.Certified.{AreStatesInOrder, IsCertified};
ghost use Rattle.answer_text.specs.Sound.{IsSound};
ghost use Rattle.violation.specs.Problems.{Problem};

/// An answer in which nothing is wrong, move by move, is sound, whoever wrote it.
pub fn certified_answers_are_sound()
    ensures { (problem : Problem) (answer : Answer) → AreSplit problem.tiers
        → AllByRecursion (IsOverTiers problem.tiers.width) problem.constraints
        → AreStatesInOrder problem.tiers.width answer.automaton.states.items
        → IsCertified problem answer → IsSound problem answer }
{}
