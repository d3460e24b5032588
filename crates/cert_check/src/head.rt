ghost use Rattle.std.specs.Prelude.{◌≡◌, ℕ, ◌+◌, ◌<◌, ◌≤◌, ◌↔◌, length, take, slice_index_or, IfErr, OnOk, IsTrue};
ghost use Rattle.tier_core.specs.Tables.{tiers_of_table};
ghost use Rattle.violation.specs.Candidates.{IsForm, IsCandidate, counts_on};
ghost use Rattle.cert_check.specs.FirstFaults.{asked_by, IsReadableFor, IsFirstFault};
ghost use Rattle.cert_check.specs.Heads.{IsFirstCountFault, HasRightForm, HasRightNumbers};
ghost use Rattle.cert_check.specs.Parts.{HasRightHead};
ghost use Rattle.cert_check.specs.Stops.{StopsBy};

use crate::fault::Fault;
use crate::stop::Stop;
use answer_text::Answer;
use grammar_reader::Grammar;
use std::alloc::Global;
use tier_core::{TierTable, Timeline, reduced, well_formed};
use violation::{is_candidate, vector};

/// Whether a form is well formed and reduced over the input tiers, with at most 64 columns.
fn is_short_form(tiers: &TierTable, form: &Timeline) -> bool
    ensures { IsTrue result
        ↔ (IsForm (tiers_of_table tiers.now) form.now × (length form.now ≤ 64)) }
{
    well_formed(form, tiers.input_count() as u32) && reduced(form) && form.len() <= 64
}

/// Looks at the form.
fn check_form(grammar: &Grammar, answer: &Answer) -> Result<(), Stop>
    ensures ok { OnOk result (HasRightForm (asked_by grammar.now answer.now)) }
    ensures err { IfErr result
        (StopsBy (IsFirstFault (asked_by grammar.now answer.now) answer.now)) }
{
    if is_short_form(&grammar.tiers, &answer.form) {
        Ok(())
    } else {
        Err(Stop::Found(Fault::FormWrong))
    }
}

/// Looks at the numbers of stages and counts.
fn check_numbers(grammar: &Grammar, answer: &Answer) -> Result<(), Stop>
    requires readable { IsReadableFor grammar.now answer.now }
    requires form { HasRightForm (asked_by grammar.now answer.now) }
    ensures ok { OnOk result (HasRightNumbers (asked_by grammar.now answer.now) answer.now) }
    ensures err { IfErr result
        (StopsBy (IsFirstFault (asked_by grammar.now answer.now) answer.now)) }
{
    let wanted = grammar.constraints.len() as u32 + 1;
    let stages = answer.stages.len() as u32;
    if stages != wanted {
        return Err(Stop::Found(Fault::StageMissing {
            listed: stages,
            wanted,
        }));
    }
    let counts = answer.counts.len() as u32 + 1;
    if counts != wanted {
        return Err(Stop::Found(Fault::StageMissing {
            listed: counts,
            wanted,
        }));
    }
    Ok(())
}

/// Looks at the example.
fn check_example(grammar: &Grammar, answer: &Answer) -> Result<(), Stop>
    requires form { HasRightForm (asked_by grammar.now answer.now) }
    requires numbers { HasRightNumbers (asked_by grammar.now answer.now) answer.now }
    ensures ok { OnOk result (IsCandidate (asked_by grammar.now answer.now) answer.now.example) }
    ensures err { IfErr result
        (StopsBy (IsFirstFault (asked_by grammar.now answer.now) answer.now)) }
{
    if is_candidate(&grammar.tiers, &answer.form, &answer.example) {
        Ok(())
    } else {
        Err(Stop::Found(Fault::ExampleWrong))
    }
}

/// Stops at the first count that is not what is counted.
fn compare_counts(listed: &[u32], counted: &[u32]) -> Result<(), Stop>
    requires few { length listed.now ≤ 24 }
    requires same { length counted.now ≡ length listed.now }
    ensures ok { OnOk result (listed.now ≡ counted.now) }
    ensures err { IfErr result (StopsBy (IsFirstCountFault listed.now counted.now)) }
{
    for place in 0..listed.len() {
        if listed[place] != counted[place] {
            return Err(Stop::Found(Fault::CountsDiffer {
                constraint: place as u32 + 1,
                listed: listed[place],
                counted: counted[place],
            }));
        }
    }
    Ok(())
}

/// Looks at the counts.
fn check_counts(alloc: Global, grammar: &Grammar, answer: &Answer) -> Result<(), Stop>
    requires readable { IsReadableFor grammar.now answer.now }
    requires form { HasRightForm (asked_by grammar.now answer.now) }
    requires numbers { HasRightNumbers (asked_by grammar.now answer.now) answer.now }
    requires example { IsCandidate (asked_by grammar.now answer.now) answer.now.example }
    ensures ok { OnOk result
        (answer.now.counts.items
        ≡ counts_on (asked_by grammar.now answer.now) answer.now.example) }
    ensures err { IfErr result
        (StopsBy (IsFirstFault (asked_by grammar.now answer.now) answer.now)) }
{
    let counted = vector(alloc, &grammar.constraints, &answer.example)?;
    compare_counts(&answer.counts, &counted)
}

/// Looks at an answer's form, its numbers of stages and counts, its example, and the counts. It stops
/// at the first fault.
pub(crate) fn check_head(alloc: Global, grammar: &Grammar, answer: &Answer) -> Result<(), Stop>
    requires { IsReadableFor grammar.now answer.now }
    ensures ok { OnOk result (HasRightHead (asked_by grammar.now answer.now) answer.now) }
    ensures err { IfErr result
        (StopsBy (IsFirstFault (asked_by grammar.now answer.now) answer.now)) }
{
    check_form(grammar, answer)?;
    check_numbers(grammar, answer)?;
    check_example(grammar, answer)?;
    check_counts(alloc, grammar, answer)
}
