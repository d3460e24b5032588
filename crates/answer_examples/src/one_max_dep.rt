ghost use Rattle.std.specs.Prelude.{String, codes};
ghost use Rattle.std.specs.declared.alloc.Global.{Global};
ghost use Rattle.violation.specs.Examples.{timeline};
ghost use Rattle.answer_text.specs.declared.answer.Answer.{Answer};
ghost use Rattle.answer_text.specs.Certified.{IsCertified};
ghost use Rattle.answer_text.specs.Right.{IsRight};
ghost use Rattle.answer_text.specs.Sound.{IsSound};
ghost use Rattle.answer_examples.specs.Ranked.{under_one_max_dep, IsAnswerOn};

/// Under `a # a`, `A -> a` and `a -> A`, ranked in this order, the form `[ ]` has an answer with
/// stages of six, six, three and three nodes, and an automaton of three states. Its one optimal
/// candidate is `[- ]-`, with counts 0, 1 and 0. The answer is right, and so certified and sound.
pub fn answers_under_one_max_and_dep()
    ensures certified { (one max dep : String Global) (answer : Answer)
        → IsAnswerOn (timeline (codes "[ ]")) one max dep answer
        → IsCertified (under_one_max_dep one max dep) answer }
    ensures sound { (one max dep : String Global) (answer : Answer)
        → IsAnswerOn (timeline (codes "[ ]")) one max dep answer
        → IsSound (under_one_max_dep one max dep) answer }
    ensures right { (one max dep : String Global) (answer : Answer)
        → IsAnswerOn (timeline (codes "[ ]")) one max dep answer
        → IsRight (under_one_max_dep one max dep) answer }
{}
