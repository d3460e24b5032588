ghost use Rattle.std.specs.Prelude.{◌≡◌, ◌<◌, ◌≤◌, ℕ, All, Err, IfErr, IfOk, List, MatchOption, length};
ghost use Rattle.tier_core.specs.declared.sym.Sym.{Sym};
ghost use Rattle.tier_core.specs.Orders.{IsFirst};
ghost use Rattle.tier_core.specs.Tables.{tiers_of_table};
ghost use Rattle.violation.specs.Candidates.{IsForm};
ghost use Rattle.violation.specs.Problems.{problem_from};
ghost use Rattle.ranked_gen.specs.Budgets.{AreAllWithin, IsFirstOver};
ghost use Rattle.comprehend.specs.Surfaces.{IsSurface, HasSurface};
ghost use Rattle.comprehend.specs.Hears.{forms_of, Hears, AreEntriesWithin, IsFirstEntryOver, IsPushed};

use crate::comp_err::CompErr;
use crate::hit::Hit;
use crate::surface::has_surface;
use grammar_reader::Grammar;
use lexicon::Entry;
use ranked_gen::{GenErr, generate};
use std::alloc::Global;
use tier_core::Timeline;

/// The first of the optimal candidates of an entry's form that have a surface. `Budget` is returned
/// with the entry's number.
fn hear(
    alloc: Global,
    grammar: &Grammar,
    index: u32,
    form: &Timeline,
    surface: &Timeline,
    budget: u32,
) -> Result<Option<Timeline>, CompErr>
    requires form { IsForm (tiers_of_table grammar.now.tiers) form.now }
    requires short_form { length form.now ≤ 64 }
    requires surface { IsSurface (tiers_of_table grammar.now.tiers) surface.now }
    requires short_surface { length surface.now ≤ 64 }
    requires some { 1 ≤ budget }
    requires few { budget ≤ 65536 }
    ensures first { IfOk result (λ first.
        MatchOption first
        ((T : List (List Sym))
        → HasSurface (problem_from grammar.now.tiers grammar.now.constraints.items form.now)
        surface.now T → ⊥)
        (IsFirst
        (HasSurface (problem_from grammar.now.tiers grammar.now.constraints.items form.now)
        surface.now))) }
    ensures within { IfOk result
        (λ first.
        AreAllWithin (problem_from grammar.now.tiers grammar.now.constraints.items form.now)
        budget) }
    ensures entry { (i stage : ℕ) → result ≡ Err (CompErr.Budget i stage) → i ≡ index }
    ensures over { (i stage : ℕ) → result ≡ Err (CompErr.Budget i stage)
        → IsFirstOver
        (problem_from grammar.now.tiers grammar.now.constraints.items form.now) budget stage }
{
    match generate(alloc, grammar, form, budget) {
        Ok(answer) => match has_surface(alloc, grammar, &answer, surface) {
            Ok(first) => Ok(first),
            Err(_) => Err(CompErr::NoMemory),
        },
        Err(GenErr::Budget { stage }) => Err(CompErr::Budget { index, stage }),
        Err(GenErr::NoMemory) => Err(CompErr::NoMemory),
    }
}

/// Appends what is heard of an entry to the hits.
fn push_heard(hits: &mut Vec<Hit>, index: u32, heard: Option<Timeline>) -> Result<(), CompErr>
    ensures pushed { IfOk result (λ _. IsPushed hits.old.items hits.new.items index heard) }
    ensures err { IfErr result (λ e. e ≡ CompErr.NoMemory) }
{
    let Some(example) = heard else {
        return Ok(());
    };
    match hits.push(Hit { index, example }) {
        Ok(()) => Ok(()),
        Err(_) => Err(CompErr::NoMemory),
    }
}

/// The entries of a lexicon that have an optimal candidate with a surface, in the order of the
/// lexicon, each with the first such candidate.
///
/// `Budget` occurs exactly when an entry has a stage with more kinds of prefix than the budget,
/// unless memory ran out: it names the first such entry, and its first such stage. `NoMemory` may
/// occur in place of any answer.
///
/// Each form is well formed and reduced over the input tiers, and the surface over the overt tiers,
/// and each has at most 64 columns. There are at most 1,000 entries, and the budget is from 1 to
/// 65,536. What is held for the surface does not count against the budget.
pub fn comprehend(
    alloc: Global,
    grammar: &Grammar,
    lexicon: &[Entry],
    surface: &Timeline,
    budget: u32,
) -> Result<Vec<Hit>, CompErr>
    requires forms { All
        (λ entry. IsForm (tiers_of_table grammar.now.tiers) entry.form) lexicon.now }
    requires short_forms { All (λ entry. length entry.form ≤ 64) lexicon.now }
    requires few_entries { length lexicon.now ≤ 1000 }
    requires surface { IsSurface (tiers_of_table grammar.now.tiers) surface.now }
    requires short_surface { length surface.now ≤ 64 }
    requires some { 1 ≤ budget }
    requires few { budget ≤ 65536 }
    ensures hears { IfOk result
        (λ hits.
        Hears (problem_from grammar.now.tiers grammar.now.constraints.items)
        (forms_of lexicon.now) surface.now hits.items) }
    ensures entries { IfOk result
        (λ hits. All (λ hit. hit.index < length lexicon.now) hits.items) }
    ensures within { IfOk result
        (λ hits.
        AreEntriesWithin (problem_from grammar.now.tiers grammar.now.constraints.items)
        (forms_of lexicon.now) budget) }
    ensures over { (index stage : ℕ) → result ≡ Err (CompErr.Budget index stage)
        → IsFirstEntryOver (problem_from grammar.now.tiers grammar.now.constraints.items)
        (forms_of lexicon.now) budget index stage }
{
    let mut hits = Vec::new(alloc);
    for (index, entry) in lexicon.iter().enumerate() {
        let heard = hear(alloc, grammar, index as u32, &entry.form, surface, budget)?;
        push_heard(&mut hits, index as u32, heard)?;
    }
    Ok(hits)
}
