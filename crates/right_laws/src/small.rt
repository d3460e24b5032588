ghost use Rattle.std.specs.List.{AllByRecursion};
ghost use Rattle.violation.specs.Candidates.{IsForm};
ghost use Rattle.violation.specs.Conditions.{AreSplit, IsOverTiers};
ghost use Rattle.violation.specs.Problems.{Problem};
ghost use Rattle.answer_text.specs.declared.answer.Answer.{Answer};
ghost use Rattle.answer_text.specs.Right.{IsRight};
ghost use Rattle.right_laws.specs.Small.{IsSmall};

/// A right answer is small: a shortest optimal candidate passes no kind twice, and each of its columns
/// adds at most 1 to a count.
pub fn right_answers_are_small()
    ensures { (problem : Problem) (answer : Answer) → AreSplit problem.tiers
        → AllByRecursion (IsOverTiers problem.tiers.width) problem.constraints
        → IsForm problem.tiers problem.form → IsRight problem answer → IsSmall problem answer }
{}
