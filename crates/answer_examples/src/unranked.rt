ghost use Rattle.std.specs.Prelude.{◌≡◌, true, false, [], ◌∷◌, List, codes};
ghost use Rattle.tier_core.specs.declared.sym.Sym.{Sym};
ghost use Rattle.violation.specs.Candidates.{IsCandidate};
ghost use Rattle.violation.specs.Examples.{timeline};
ghost use Rattle.answer_text.specs.declared.answer.Answer.{Answer};
ghost use Rattle.answer_text.specs.Certified.{IsCertified};
ghost use Rattle.answer_text.specs.Right.{IsRight};
ghost use Rattle.answer_text.specs.Sound.{IsSound};
ghost use Rattle.answer_examples.specs.Seen.{IsSeenAs};
ghost use Rattle.answer_examples.specs.Worked.{unranked_problem, node, arc_on, state, two_kinds, two_states};

/// Without constraints, the empty form has an answer with two nodes and two states. It is certified
/// and sound with any candidate as its example. With the first, which has no columns, it is right;
/// with one that is not the first, it is not.
pub fn unranked_answers()
    ensures certified { (answer : Answer) (example : List (List Sym))
        → IsCandidate unranked_problem example
        → IsSeenAs unranked_problem answer [] example two_kinds two_states
        → IsCertified unranked_problem answer }
    ensures sound { (answer : Answer) (example : List (List Sym))
        → IsCandidate unranked_problem example
        → IsSeenAs unranked_problem answer [] example two_kinds two_states
        → IsSound unranked_problem answer }
    ensures right { (answer : Answer) → IsSeenAs unranked_problem answer [] [] two_kinds two_states
        → IsRight unranked_problem answer }
    ensures another_example { (answer : Answer)
        → IsSeenAs unranked_problem answer [] (timeline (codes "-[ -]")) two_kinds two_states
        → IsSound unranked_problem answer }
    ensures not_right { (answer : Answer)
        → IsSeenAs unranked_problem answer [] (timeline (codes "-[ -]")) two_kinds two_states
        → IsRight unranked_problem answer → ⊥ }
{}

/// Alterations of this answer that are not certified: a potential that is raised; a node, an arc, a
/// final mark or the stage taken out; a count that is added; an example that is not a candidate.
pub fn altered_answers_are_refused()
    ensures start_raised { (answer : Answer)
        → IsSeenAs unranked_problem answer [] []
        ((node (codes "-") [] 1 ∷ node (codes "+") [] 0 ∷ []) ∷ []) two_states
        → IsCertified unranked_problem answer → ⊥ }
    ensures potential_raised { (answer : Answer)
        → IsSeenAs unranked_problem answer [] []
        ((node (codes "-") [] 0 ∷ node (codes "+") [] 1 ∷ []) ∷ []) two_states
        → IsCertified unranked_problem answer → ⊥ }
    ensures node_taken_out { (answer : Answer)
        → IsSeenAs unranked_problem answer [] [] ((node (codes "-") [] 0 ∷ []) ∷ []) two_states
        → IsCertified unranked_problem answer → ⊥ }
    ensures start_taken_out { (answer : Answer)
        → IsSeenAs unranked_problem answer [] [] ((node (codes "+") [] 0 ∷ []) ∷ []) two_states
        → IsCertified unranked_problem answer → ⊥ }
    ensures stage_taken_out { (answer : Answer)
        → IsSeenAs unranked_problem answer [] [] [] two_states → IsCertified unranked_problem answer
        → ⊥ }
    ensures arc_taken_out { (answer : Answer)
        → IsSeenAs unranked_problem answer [] [] two_kinds (state 0 true [] ∷ state 1 false
        (arc_on 0 (codes "-]") ∷ arc_on 1 (codes "-|") ∷ []) ∷ [])
        → IsCertified unranked_problem answer → ⊥ }
    ensures mark_taken_out { (answer : Answer)
        → IsSeenAs unranked_problem answer [] [] two_kinds
        (state 0 false (arc_on 1 (codes "-[") ∷ [])
        ∷ state 1 false (arc_on 0 (codes "-]") ∷ arc_on 1 (codes "-|") ∷ []) ∷ [])
        → IsCertified unranked_problem answer → ⊥ }
    ensures count_added { (answer : Answer)
        → IsSeenAs unranked_problem answer (0 ∷ []) [] two_kinds two_states
        → IsCertified unranked_problem answer → ⊥ }
    ensures no_candidate { (answer : Answer)
        → IsSeenAs unranked_problem answer [] (timeline (codes "-[")) two_kinds two_states
        → IsCertified unranked_problem answer → ⊥ }
{}
