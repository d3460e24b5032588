ghost use Rattle.std.specs.Prelude.{◌≡◌, ◌↔◌, List};
ghost use Rattle.tier_core.specs.declared.sym.Sym.{Sym};
ghost use Rattle.violation.specs.Problems.{Problem};
ghost use Rattle.answer_text.specs.declared.answer.Answer.{Answer};
ghost use Rattle.answer_text.specs.declared.once_answer.OnceAnswer.{OnceAnswer};
ghost use Rattle.answer_text.specs.Acceptance.{Accepts};
ghost use Rattle.answer_text.specs.Right.{IsRight};
ghost use Rattle.answer_text.specs.RightOnce.{IsRightOnce};

/// A right answer of the stages and one of a single pass agree if both are for one problem: they
/// accept the same timelines, and have the same counts and the same example.
pub fn both_generators_agree()
    ensures accepts { (problem : Problem) (answer : Answer) (once : OnceAnswer)
        → IsRight problem answer → IsRightOnce problem once → (T : List (List Sym))
        → Accepts answer.automaton.states.items T ↔ Accepts once.automaton.states.items T }
    ensures counts { (problem : Problem) (answer : Answer) (once : OnceAnswer)
        → IsRight problem answer → IsRightOnce problem once
        → answer.counts.items ≡ once.counts.items }
    ensures example { (problem : Problem) (answer : Answer) (once : OnceAnswer)
        → IsRight problem answer → IsRightOnce problem once → answer.example ≡ once.example }
{}
