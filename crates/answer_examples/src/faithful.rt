ghost use Rattle.std.specs.Prelude.{◌≡◌, List, String};
ghost use Rattle.std.specs.declared.alloc.Global.{Global};
ghost use Rattle.std.specs.declared.cmp.Ordering.TheVariants.{Greater};
ghost use Rattle.tier_core.specs.declared.sym.Sym.{Sym};
ghost use Rattle.tier_core.specs.Orders.{timeline_cmp};
ghost use Rattle.answer_text.specs.declared.answer.Answer.{Answer};
ghost use Rattle.answer_text.specs.Certified.{IsCertified};
ghost use Rattle.answer_text.specs.Right.{IsRight};
ghost use Rattle.answer_text.specs.Sound.{IsSound};
ghost use Rattle.answer_examples.specs.Faithful.{under_max_dep, under_max_dep_one, first_optimal};
ghost use Rattle.answer_examples.specs.Faithful.{other_optimal, IsAnswerOfMany, IsAnswerOfNine};
ghost use Rattle.answer_examples.specs.Faithful.{IsOneOfNine, IsAnswerOfOther};

/// Under `A -> a` and `a -> A` the form `[ ]` has an answer whose automaton leads back to where it
/// was: as many a's may stand inside A as one likes. The first optimal candidate is `[[ ]]`. The
/// answer is right, and so certified and sound.
pub fn answers_under_max_and_dep()
    ensures certified { (max dep : String Global) (answer : Answer)
        → IsAnswerOfMany max dep answer → IsCertified (under_max_dep max dep) answer }
    ensures sound { (max dep : String Global) (answer : Answer)
        → IsAnswerOfMany max dep answer → IsSound (under_max_dep max dep) answer }
    ensures right { (max dep : String Global) (answer : Answer)
        → IsAnswerOfMany max dep answer → IsRight (under_max_dep max dep) answer }
{}

/// With `a # a` below them, one a is left, and nine candidates are optimal. With any of them as its
/// example the answer is certified and sound. With the first, `[[ ]]`, it is right; with one that
/// comes after it, such as `-[ [+ ]+ -]`, it is not. The answer to the same constraints with
/// `a # a` above the others is not certified.
pub fn answers_under_max_dep_and_one()
    ensures certified { (max dep one : String Global) (answer : Answer) (example : List (List Sym))
        → IsOneOfNine max dep one example → IsAnswerOfNine max dep one answer example
        → IsCertified (under_max_dep_one max dep one) answer }
    ensures sound { (max dep one : String Global) (answer : Answer) (example : List (List Sym))
        → IsOneOfNine max dep one example → IsAnswerOfNine max dep one answer example
        → IsSound (under_max_dep_one max dep one) answer }
    ensures right { (max dep one : String Global) (answer : Answer)
        → IsAnswerOfNine max dep one answer first_optimal
        → IsRight (under_max_dep_one max dep one) answer }
    ensures not_right { (max dep one : String Global) (answer : Answer) (example : List (List Sym))
        → IsOneOfNine max dep one example → timeline_cmp example first_optimal ≡ Greater
        → IsAnswerOfNine max dep one answer example
        → IsRight (under_max_dep_one max dep one) answer → ⊥ }
    ensures another_example { (max dep one : String Global) (answer : Answer)
        → IsAnswerOfNine max dep one answer other_optimal
        → IsRight (under_max_dep_one max dep one) answer → ⊥ }
    ensures another_ranking { (max dep one : String Global) (answer : Answer)
        → IsAnswerOfOther max dep one answer
        → IsCertified (under_max_dep_one max dep one) answer → ⊥ }
{}
