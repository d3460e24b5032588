ghost use Rattle.std.specs.Prelude.{ℕ, ◌≡◌, ◌≤◌, ◌↔◌, List};
ghost use Rattle.std.specs.List.{AllByRecursion};
ghost use Rattle.violation.specs.Candidates.{IsForm};
ghost use Rattle.violation.specs.Conditions.{AreSplit, IsOverTiers};
ghost use Rattle.violation.specs.Problems.{Problem, last_place};
ghost use Rattle.answer_text.specs.declared.answer.Answer.{Answer};
ghost use Rattle.answer_text.specs.Certified.{AreStatesInOrder, IsCertified};
ghost use Rattle.answer_text.specs.Right.{IsRight};
ghost use Rattle.answer_text.specs.Sound.{IsSound};
ghost use Rattle.cert_check.specs.declared.fault.Fault.{Fault};
ghost use Rattle.cert_check.specs.declared.fault.Verdict.{Verdict};
ghost use Rattle.cert_check.specs.FirstFaults.{IsFault, IsFaultless, IsFirstFault};
ghost use Rattle.cert_check.specs.Seen.{AreAskedAlike, AreSeenAlike};
ghost use Rattle.cert_check.specs.Verdicts.{IsVerdict};

/// No fault is in a certified answer whose states are in order.
pub fn certified_answers_are_faultless()
    ensures { (problem : Problem) (answer : Answer)
        → AreStatesInOrder problem.tiers.width answer.automaton.states.items
        → IsCertified problem answer → IsFaultless problem answer }
{}

/// No fault is in a right answer to a form of at most 64 columns.
pub fn right_answers_are_faultless()
    ensures { (problem : Problem) (answer : Answer) → AreSplit problem.tiers
        → AllByRecursion (IsOverTiers problem.tiers.width) problem.constraints
        → IsForm problem.tiers problem.form → last_place problem ≤ 64
        → AreStatesInOrder problem.tiers.width answer.automaton.states.items
        → IsRight problem answer → IsFaultless problem answer }
{}

/// An answer without a fault, of the form that was asked, is certified.
pub fn faultless_answers_are_certified()
    ensures { (problem : Problem) (answer : Answer) → answer.form ≡ problem.form
        → IsFaultless problem answer → IsCertified problem answer }
{}

/// And so it is sound: its automaton accepts exactly the optimal candidates, and its counts are the
/// least.
pub fn faultless_answers_are_sound()
    ensures { (problem : Problem) (answer : Answer) → AreSplit problem.tiers
        → AllByRecursion (IsOverTiers problem.tiers.width) problem.constraints
        → AreStatesInOrder problem.tiers.width answer.automaton.states.items
        → answer.form ≡ problem.form → IsFaultless problem answer → IsSound problem answer }
{}

/// Of an answer whose states are in order, one fault alone comes first.
pub fn one_fault_comes_first()
    ensures { (problem : Problem) (answer : Answer) (fault other : Fault)
        → AreStatesInOrder problem.tiers.width answer.automaton.states.items
        → IsFirstFault problem answer fault → IsFirstFault problem answer other → fault ≡ other }
{}

/// Whether a fault is in an answer, whether it comes first, and which verdict an answer gets, is in what
/// is seen of the problem and of the answer.
pub fn faults_are_in_what_is_seen()
    ensures faults { (problem other : Problem) (answer seen : Answer) → AreAskedAlike problem other
        → AreSeenAlike problem answer seen → (fault : Fault) (place : List ℕ)
        → IsFault problem answer fault place ↔ IsFault other seen fault place }
    ensures first { (problem other : Problem) (answer seen : Answer) → AreAskedAlike problem other
        → AreSeenAlike problem answer seen → (fault : Fault)
        → IsFirstFault problem answer fault → IsFirstFault other seen fault }
    ensures verdict { (problem other : Problem) (answer seen : Answer) → AreAskedAlike problem other
        → AreSeenAlike problem answer seen → (verdict : Verdict)
        → IsVerdict problem answer verdict ↔ IsVerdict other seen verdict }
{}
