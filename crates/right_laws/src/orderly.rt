ghost use Rattle.std.specs.Prelude.{◌≤◌, ℕ, length};
ghost use Rattle.std.specs.List.{AllByRecursion};
ghost use Rattle.tier_core.specs.declared.shape.Shape.{Shape};
ghost use Rattle.violation.specs.Candidates.{IsForm};
ghost use Rattle.violation.specs.Conditions.{AreSplit, IsOverTiers};
ghost use Rattle.violation.specs.Problems.{Problem, last_place, last_stage};
ghost use Rattle.answer_text.specs.declared.answer.Answer.{Answer};
ghost use Rattle.answer_text.specs.Orderly.{IsOrderly};
ghost use Rattle.answer_text.specs.Right.{IsRight, nodes_at};
ghost use Rattle.right_laws.specs.Shapes.{IsShapeOfProblem};

/// A right answer to a form of at most 64 columns, with at most 65,536 kinds at each stage, is orderly.
/// So its text is within the limits of what is read, and is read as its value.
pub fn right_answers_are_orderly()
    ensures { (problem : Problem) (shape : Shape) (answer : Answer) → AreSplit problem.tiers
        → AllByRecursion (IsOverTiers problem.tiers.width) problem.constraints
        → IsForm problem.tiers problem.form → last_place problem ≤ 64
        → IsShapeOfProblem problem shape
        → ((r : ℕ) → r ≤ last_stage problem → length (nodes_at answer.stages.items r) ≤ 65536)
        → IsRight problem answer → IsOrderly shape answer }
{}
