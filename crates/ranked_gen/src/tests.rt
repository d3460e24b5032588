ghost use Rattle.std.specs.Prelude.{IsTrue};
ghost use Rattle.tier_core.specs.Tables.{tiers_of_table};
ghost use Rattle.violation.specs.Candidates.{IsForm};
ghost use Rattle.violation.specs.Problems.{problem_from};

use crate::{GenErr, generate, generate_once};
use answer_text::{Answer, OnceAnswer};
use grammar_reader::{Grammar, read_grammar};
use std::alloc::Global;
use std::cmp::Ordering;
use std::process::Abort;
use std::test::Fail;
use tier_core::{Timeline, reduced, timeline_cmp, well_formed};
use timeline_text::read_timeline;

const BASE: &[u8] = b"otp 1\ntier A input\ntier a overt\n";

const RANKED: &[u8] =
    b"otp 1\ntier A input\ntier a overt\nconstraint One a # a\nconstraint Max A -> a\nconstraint Dep a -> A\n";

const HIDDEN: &[u8] = b"otp 1\ntier A input\ntier a overt\ntier b hidden\n";

const MIXED: &[u8] = b"otp 1\ntier a overt\ntier A input\ntier b hidden\ntier B input\n";

/// The grammar of a text.
fn grammar(alloc: Global, text: &[u8]) -> Option<Grammar> {
    if text.len() > 65536 {
        return None;
    }
    read_grammar(alloc, text).ok()
}

/// The timeline of a text over so many tiers.
fn timeline(alloc: Global, width: usize, text: &[u8]) -> Option<Timeline> {
    if width < 1 || width > 12 {
        return None;
    }
    read_timeline(alloc, width as u32, 64, text).ok()
}

/// Whether a timeline is a form of a grammar.
fn is_form(grammar: &Grammar, form: &Timeline) -> bool
    ensures { IsTrue result → IsForm (tiers_of_table grammar.now.tiers) form.now }
{
    let inputs = grammar.tiers.input_count();
    well_formed(form, inputs as u32) && reduced(form)
}

/// What is generated, if all that is required holds.
fn generated(
    alloc: Global,
    grammar: &Grammar,
    form: &Timeline,
    budget: u32,
) -> Option<Result<Answer, GenErr>> {
    if form.len() > 64 || budget < 1 || budget > 65536 {
        return None;
    }
    if !is_form(grammar, form) {
        return None;
    }
    Some(generate(alloc, grammar, form, budget))
}

/// The number of nodes of the first stage and whether the example is this one, or the error.
fn shown(
    alloc: Global,
    text: &[u8],
    form: &[u8],
    budget: u32,
    example: &[u8],
) -> Option<Result<(usize, bool), GenErr>> {
    let grammar = grammar(alloc, text)?;
    let inputs = grammar.tiers.input_count();
    let form = timeline(alloc, inputs, form)?;
    let expected = timeline(alloc, grammar.tiers.kinds.len(), example)?;
    match generated(alloc, &grammar, &form, budget)? {
        Ok(answer) => {
            let nodes = answer.stages.first()?.nodes.len();
            let is_first = timeline_cmp(&answer.example, &expected) == Ordering::Equal;
            Some(Ok((nodes, is_first)))
        }
        Err(e) => Some(Err(e)),
    }
}

/// Tries rows of a form, a budget, an example, and how many nodes there are with this example, or the
/// error, with a semicolon between any two.
fn try_budgets(rt: &impl Abort, alloc: Global, grammar: &[u8], rows: &str) -> Result<(), Fail> {
    for row in rows.split('\n') {
        let mut cells = row.split(';');
        let form = cells.next().ok_or("no form")?.as_bytes();
        let budget = cells.next().ok_or("no budget")?.parse::<u32>()?;
        let example = cells.next().ok_or("no example")?.as_bytes();
        let found = shown(alloc, grammar, form, budget, example).ok_or("not asked")?;
        let told = format!(in alloc; "{found:?}")?;
        assert_eq!(rt; told.as_str(), cells.next().ok_or("no answer")?, "{row}");
    }
    Ok(())
}

#[test]
fn budgets_and_examples(rt: HostRuntime) -> Result<(), Fail> {
    let base = "empty;1;empty;Err(Budget { stage: 0 })
empty;2;empty;Ok((2, true))
[ ];5;[- ]-;Err(Budget { stage: 0 })
[ ];6;[- ]-;Ok((6, true))
[ | ];8;[- |- ]-;Ok((8, true))
[ ];65536;[- ]-;Ok((6, true))";
    try_budgets(&rt, rt.alloc(), BASE, base)?;
    let hidden = "[ ];11;[-- ]--;Err(Budget { stage: 0 })\n[ ];12;[-- ]--;Ok((12, true))";
    try_budgets(&rt, rt.alloc(), HIDDEN, hidden)?;
    let mixed = "[- ][ -];15;-[-- -]-[ ---];Err(Budget { stage: 0 })
[- ][ -];16;-[-- -]-[ ---];Ok((16, true))";
    try_budgets(&rt, rt.alloc(), MIXED, mixed)
}

/// What a single pass gives, if all that is asked for holds.
fn passed(
    alloc: Global,
    grammar: &Grammar,
    form: &Timeline,
    budget: u32,
) -> Option<Result<OnceAnswer, GenErr>> {
    if form.len() > 64 || budget < 1 || budget > 65536 {
        return None;
    }
    if !is_form(grammar, form) {
        return None;
    }
    Some(generate_once(alloc, grammar, form, budget))
}

/// The number of nodes of a single pass, and whether its counts and example are those that the stages
/// give with this budget; or its error.
fn agreement(
    alloc: Global,
    text: &[u8],
    form: &[u8],
    stages_budget: u32,
    budget: u32,
) -> Option<Result<(usize, bool), GenErr>> {
    let grammar = grammar(alloc, text)?;
    let form = timeline(alloc, grammar.tiers.input_count(), form)?;
    let staged = generated(alloc, &grammar, &form, stages_budget)?.ok()?;
    match passed(alloc, &grammar, &form, budget)? {
        Ok(once) => {
            let same_example = timeline_cmp(&once.example, &staged.example) == Ordering::Equal;
            let same_counts = once.counts.as_slice() == staged.counts.as_slice();
            Some(Ok((once.nodes.len(), same_example && same_counts)))
        }
        Err(e) => Some(Err(e)),
    }
}

/// Tries rows of a form, a budget of the stages and one of the single pass, and how many nodes the
/// single pass has, or the error.
fn try_passes(rt: &impl Abort, alloc: Global, grammar: &[u8], rows: &str) -> Result<(), Fail> {
    for row in rows.split('\n') {
        let mut cells = row.split(';');
        let form = cells.next().ok_or("no form")?.as_bytes();
        let stages = cells.next().ok_or("no budget")?.parse::<u32>()?;
        let budget = cells.next().ok_or("no budget")?.parse::<u32>()?;
        let found = agreement(alloc, grammar, form, stages, budget).ok_or("not asked")?;
        let told = format!(in alloc; "{found:?}")?;
        assert_eq!(rt; told.as_str(), cells.next().ok_or("no answer")?, "{row}");
    }
    Ok(())
}

#[test]
fn a_single_pass_gives_what_the_stages_give(rt: HostRuntime) -> Result<(), Fail> {
    let ranked = "[ ];6;8;Ok((8, true))
[ ];6;7;Err(Budget { stage: 3 })
[ ];6;5;Err(Budget { stage: 3 })";
    try_passes(&rt, rt.alloc(), RANKED, ranked)?;
    let base = "[ | ];8;8;Ok((8, true))\n[ | ];8;7;Err(Budget { stage: 0 })";
    try_passes(&rt, rt.alloc(), BASE, base)?;
    try_passes(&rt, rt.alloc(), MIXED, "[- ][ -];16;16;Ok((16, true))")
}
