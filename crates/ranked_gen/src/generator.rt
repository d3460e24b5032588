ghost use Rattle.std.specs.Prelude.{◌≡◌, ◌≤◌, ◌*◌, ◌^◌, ℕ, [], ◌∷◌, length, Err, IfOk};
ghost use Rattle.arc_table.specs.States.{states_of};
ghost use Rattle.tier_core.specs.Tables.{tiers_of_table};
ghost use Rattle.violation.specs.Candidates.{IsForm};
ghost use Rattle.violation.specs.Problems.{problem_from, last_stage};
ghost use Rattle.answer_text.specs.Right.{IsRight};
ghost use Rattle.kind_moves.specs.Frames.{problem_in};
ghost use Rattle.kind_orders.specs.JoinedArcs.{HaveJoinedArcs};
ghost use Rattle.ranked_gen.specs.Budgets.{AreAllWithin, HaveFewKinds, IsFirstOver};
ghost use Rattle.ranked_gen.specs.FittingKinds.{HaveFittingKinds};
ghost use Rattle.ranked_gen.specs.Left.{IsRanked};

use crate::gen_err::GenErr;
use crate::ranked::{Ranked, all_ranked, whole_answer};
use crate::staged::{Staged, first_stage};
use answer_text::{Answer, Stage};
use grammar_reader::Grammar;
use kind_moves::Frame;
use std::alloc::Global;
use tier_core::{NoMemory, Timeline};

/// How many kinds so many places have, one for each set of open free tiers.
pub(crate) fn count_kinds(places: u32, free: u32) -> u32
    requires places { places ≤ 65 }
    requires few { free ≤ 12 }
    ensures { result ≡ places * 2 ^ free }
{
    places << free
}

/// A list of one stage.
fn one_stage(alloc: Global, stage: Stage) -> Result<Vec<Stage>, NoMemory>
    ensures { IfOk result (λ stages. stages.items ≡ stage ∷ []) }
{
    let mut stages = Vec::new(alloc);
    match stages.push(stage) {
        Ok(()) => Ok(stages),
        Err(_) => Err(NoMemory),
    }
}

/// Stage 0 alone, which counts nothing, with what it leaves. It fails only if memory runs out.
fn stage_zero(alloc: Global, first: Staged) -> Result<Ranked, NoMemory>
    ensures stages { IfOk result (λ all. all.stages.items ≡ first.stage ∷ []) }
    ensures counts { IfOk result (λ all. all.counts.items ≡ []) }
    ensures left { IfOk result (λ all. all.left ≡ first.left) }
    ensures kinds { IfOk result (λ all. all.kinds ≡ first.kinds) }
{
    let Staged {
        stage,
        count: _,
        left,
        kinds,
    } = first;
    let stages = one_stage(alloc, stage)?;
    Ok(Ranked {
        stages,
        counts: Vec::new(alloc),
        left,
        kinds,
    })
}

/// All stages for the form of a frame, from stage 0 on, within the budget.
fn stages_in(alloc: Global, frame: &Frame, budget: u32) -> Result<Ranked, GenErr>
    requires some { 1 ≤ budget }
    requires few_kinds { budget ≤ 65536 }
    ensures ranked { IfOk result
        (λ all.
        IsRanked (problem_in frame.now) budget
        (last_stage (problem_in frame.now)) all.stages.items all.counts.items
        (states_of all.left.kept.table) all.left.kept.states.items all.left.order.items) }
    ensures over { (stage : ℕ) → result ≡ Err (GenErr.Budget stage)
        → IsFirstOver (problem_in frame.now) budget stage }
{
    let first = match first_stage(alloc, frame, budget) {
        Ok(first) => first,
        Err(cause) => return Err(cause),
    };
    match stage_zero(alloc, first) {
        Ok(start) => all_ranked(alloc, frame, start, budget),
        Err(_) => Err(GenErr::NoMemory),
    }
}

/// The right answer for the form of a frame, within the budget.
fn answer_in(alloc: Global, frame: &Frame, budget: u32) -> Result<Answer, GenErr>
    requires some { 1 ≤ budget }
    requires few_kinds { budget ≤ 65536 }
    ensures right { IfOk result (λ answer. IsRight (problem_in frame.now) answer) }
    ensures fitting { IfOk result (λ answer. HaveFittingKinds (problem_in frame.now) answer) }
    ensures joined { IfOk result (λ answer. HaveJoinedArcs answer.automaton.states.items) }
    ensures within { IfOk result (λ answer. AreAllWithin (problem_in frame.now) budget) }
    ensures listed { IfOk result (λ answer. HaveFewKinds (problem_in frame.now) budget) }
    ensures over { (stage : ℕ) → result ≡ Err (GenErr.Budget stage)
        → IsFirstOver (problem_in frame.now) budget stage }
{
    match stages_in(alloc, frame, budget) {
        Ok(ranked) => whole_answer(alloc, frame, ranked).map_err(|_| GenErr::NoMemory),
        Err(cause) => Err(cause),
    }
}

/// The right answer for a grammar and a form, in which no stage has more kinds of prefix than the
/// budget; `Budget` exactly when a stage has more, with the first such stage. The arcs of its
/// automaton are joined: any two from one state to one target differ in the sets of at least two
/// tiers. The kinds that it lists have bits only for the free tiers and for the stretch
/// implications of their stages.
///
/// The form is well formed and reduced over the input tiers, and has at most 64 columns. The budget
/// is from 1 to 65,536. `NoMemory` occurs only if memory runs out.
pub fn generate(
    alloc: Global,
    grammar: &Grammar,
    form: &Timeline,
    budget: u32,
) -> Result<Answer, GenErr>
    requires form { IsForm (tiers_of_table grammar.now.tiers) form.now }
    requires short { length form.now ≤ 64 }
    requires some { 1 ≤ budget }
    requires few { budget ≤ 65536 }
    ensures right { IfOk result
        (λ answer.
        IsRight (problem_from grammar.now.tiers grammar.now.constraints.items form.now) answer) }
    ensures fitting { IfOk result
        (λ answer.
        HaveFittingKinds (problem_from grammar.now.tiers grammar.now.constraints.items form.now)
        answer) }
    ensures joined { IfOk result (λ answer. HaveJoinedArcs answer.automaton.states.items) }
    ensures within { IfOk result
        (λ answer.
        AreAllWithin (problem_from grammar.now.tiers grammar.now.constraints.items form.now)
        budget) }
    ensures listed { IfOk result
        (λ answer.
        HaveFewKinds (problem_from grammar.now.tiers grammar.now.constraints.items form.now)
        budget) }
    ensures over { (stage : ℕ) → result ≡ Err (GenErr.Budget stage)
        → IsFirstOver
        (problem_from grammar.now.tiers grammar.now.constraints.items form.now) budget stage }
{
    let free = grammar.tiers.free_count() as u32;
    let kinds = count_kinds(form.len() as u32 + 1, free);
    if kinds > budget {
        return Err(GenErr::Budget { stage: 0 });
    }
    match Frame::new(alloc, grammar, form) {
        Ok(frame) => answer_in(alloc, &frame, budget),
        Err(_) => Err(GenErr::NoMemory),
    }
}
