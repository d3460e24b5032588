ghost use Rattle.std.specs.Prelude.{◌≡◌, ◌≤◌, IfErr, IfOk, OnOk};
ghost use Rattle.violation.specs.Candidates.{IsForm};
ghost use Rattle.violation.specs.Problems.{last_place};
ghost use Rattle.answer_text.specs.Right.{IsRight};
ghost use Rattle.answer_text.specs.Sound.{IsSound};
ghost use Rattle.cert_check.specs.declared.fault.Verdict.TheVariants.{Yes};
ghost use Rattle.cert_check.specs.FirstFaults.{IsFaultless, IsFirstFault, IsReadableFor, asked_by};
ghost use Rattle.cert_check.specs.Stops.{StopsBy};
ghost use Rattle.cert_check.specs.Verdicts.{IsVerdict};

use crate::fault::Verdict;
use crate::head::check_head;
use crate::stages::check_stages;
use crate::states::check_states;
use crate::stop::Stop;
use crate::subject::Subject;
use answer_text::Answer;
use grammar_reader::{Grammar, shape};
use std::alloc::Global;
use tier_core::NoMemory;

/// Looks at the whole answer. It stops at the first fault.
fn check_all(alloc: Global, grammar: &Grammar, answer: &Answer) -> Result<(), Stop>
    requires { IsReadableFor grammar.now answer.now }
    ensures ok { OnOk result (IsFaultless (asked_by grammar.now answer.now) answer.now) }
    ensures err { IfErr result
        (StopsBy (IsFirstFault (asked_by grammar.now answer.now) answer.now)) }
{
    check_head(alloc, grammar, answer)?;
    let shape = shape(alloc, grammar)?;
    let subject = Subject {
        grammar,
        answer,
        shape: &shape,
    };
    let left = check_stages(alloc, &subject)?;
    check_states(alloc, &subject, &left)
}

/// What a checker says of an answer that is within the limits of what is read: No with the fault that
/// comes first, or Yes if there is none. Fails only if memory runs out.
///
/// An answer that gets Yes is sound, whoever made it: its automaton accepts exactly the optimal
/// candidates of its form, and its counts are the least. A right answer never gets No.
pub fn check(alloc: Global, grammar: &Grammar, answer: &Answer) -> Result<Verdict, NoMemory>
    requires { IsReadableFor grammar.now answer.now }
    ensures verdict { IfOk result (IsVerdict (asked_by grammar.now answer.now) answer.now) }
    ensures sound { IfOk result (λ verdict. verdict ≡ Yes
        → IsSound (asked_by grammar.now answer.now) answer.now) }
    ensures right { IsRight (asked_by grammar.now answer.now) answer.now
        → IsForm (asked_by grammar.now answer.now).tiers answer.now.form
        → last_place (asked_by grammar.now answer.now) ≤ 64
        → IfOk result (λ verdict. verdict ≡ Yes) }
{
    match check_all(alloc, grammar, answer) {
        Ok(()) => Ok(Verdict::Yes),
        Err(Stop::Found(fault)) => Ok(Verdict::No(fault)),
        Err(Stop::NoMemory) => Err(NoMemory),
    }
}
