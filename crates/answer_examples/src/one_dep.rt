ghost use Rattle.std.specs.Prelude.{true, [], ◌∷◌, String};
ghost use Rattle.std.specs.declared.alloc.Global.{Global};
ghost use Rattle.answer_text.specs.declared.answer.Answer.{Answer};
ghost use Rattle.answer_text.specs.Certified.{IsCertified};
ghost use Rattle.answer_text.specs.Right.{IsRight};
ghost use Rattle.answer_text.specs.Sound.{IsSound};
ghost use Rattle.answer_examples.specs.Seen.{IsSeenAs};
ghost use Rattle.answer_examples.specs.Worked.{state, under_dep, dep_kinds};

/// Under `a -> A` the empty form has an answer with one state, which is final and has no arcs: the
/// one optimal candidate has no columns, and its count is 0. The answer is right, and so certified
/// and sound.
pub fn answers_under_one_dependence()
    ensures certified { (name : String Global) (answer : Answer)
        → IsSeenAs (under_dep name) answer (0 ∷ []) [] dep_kinds (state 0 true [] ∷ [])
        → IsCertified (under_dep name) answer }
    ensures sound { (name : String Global) (answer : Answer)
        → IsSeenAs (under_dep name) answer (0 ∷ []) [] dep_kinds (state 0 true [] ∷ [])
        → IsSound (under_dep name) answer }
    ensures right { (name : String Global) (answer : Answer)
        → IsSeenAs (under_dep name) answer (0 ∷ []) [] dep_kinds (state 0 true [] ∷ [])
        → IsRight (under_dep name) answer }
{}
