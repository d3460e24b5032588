ghost use Rattle.std.specs.Prelude.{◌≡◌, ◌≤◌, ◌++◌, ◌∷◌, [], ℕ, Err, IfOk, length};
ghost use Rattle.arc_table.specs.States.{states_of};
ghost use Rattle.answer_text.specs.Right.{IsRight};
ghost use Rattle.kind_moves.specs.Frames.{tiers_in, constraints_in, form_in};
ghost use Rattle.kind_orders.specs.JoinedArcs.{HaveJoinedArcs};
ghost use Rattle.ranked_gen.specs.Budgets.{IsFirstOver};
ghost use Rattle.ranked_gen.specs.FittingKinds.{HaveFittingKinds};
ghost use Rattle.ranked_gen.specs.KindsLeft.{AreKindsLeft};
ghost use Rattle.ranked_gen.specs.Left.{IsRanked};
ghost use Rattle.violation.specs.Problems.{last_stage};
ghost use Rattle.kind_moves.specs.Frames.{problem_in};

use crate::ending::{Ending, ending_of};
use crate::gen_err::GenErr;
use crate::staged::{Left, Staged, next_stage};
use answer_text::{Answer, Stage};
use kind_moves::Frame;
use prune_best::Tight;
use std::alloc::Global;
use tier_core::{Kind, NoMemory};

/// Stages one after another, the counts of their constraints, what the last of them leaves, and the
/// kinds that the states of this stand for.
#[derive(Drop)]
pub(crate) struct Ranked {
    pub(crate) stages: Vec<Stage>,
    pub(crate) counts: Vec<u32>,
    pub(crate) left: Left,
    pub(crate) kinds: Vec<Kind>,
}

/// Stages and counts with those of one more stage, and what this leaves.
fn with_next(stages: Vec<Stage>, counts: Vec<u32>, next: Staged) -> Result<Ranked, NoMemory>
    ensures stages { IfOk result (λ all. all.stages.items ≡ stages.items ++ next.stage ∷ []) }
    ensures counts { IfOk result (λ all. all.counts.items ≡ counts.items ++ next.count ∷ []) }
    ensures left { IfOk result (λ all. all.left ≡ next.left) }
    ensures kinds { IfOk result (λ all. all.kinds ≡ next.kinds) }
{
    let mut stages = stages;
    let mut counts = counts;
    let Staged {
        stage,
        count,
        left,
        kinds,
    } = next;
    if stages.push(stage).is_err() || counts.push(count).is_err() {
        return Err(NoMemory);
    }
    Ok(Ranked {
        stages,
        counts,
        left,
        kinds,
    })
}

/// All stages of a frame, from stage 0 on. `Budget` occurs with the first stage that has more
/// kinds of prefix than the budget, and `NoMemory` only if memory runs out.
pub(crate) fn all_ranked(
    alloc: Global,
    frame: &Frame,
    start: Ranked,
    budget: u32,
) -> Result<Ranked, GenErr>
    requires start { IsRanked (problem_in frame.now) budget 0 start.stages.items start.counts.items
        (states_of start.left.kept.table) start.left.kept.states.items start.left.order.items }
    requires kinds { AreKindsLeft frame.now 0 (states_of start.left.kept.table) start.kinds.items }
    requires few_kinds { length start.kinds.items ≤ budget }
    requires some { 1 ≤ budget }
    requires few { budget ≤ 65536 }
    ensures ranked { IfOk result
        (λ all.
        IsRanked (problem_in frame.now) budget
        (last_stage (problem_in frame.now)) all.stages.items all.counts.items
        (states_of all.left.kept.table) all.left.kept.states.items all.left.order.items) }
    ensures over { (s : ℕ) → result ≡ Err (GenErr.Budget s)
        → IsFirstOver (problem_in frame.now) budget s }
{
    let mut ranked = start;
    for number in 0..frame.grammar.constraints.len() as u32 {
        let Ranked {
            stages,
            counts,
            left,
            kinds,
        } = ranked;
        let Left { kept, order: _ } = left;
        let Tight { table, states: _ } = kept;
        let next = match next_stage(alloc, frame, number + 1, table, &kinds, budget) {
            Ok(next) => next,
            Err(cause) => return Err(cause),
        };
        ranked = match with_next(stages, counts, next) {
            Ok(more) => more,
            Err(_) => return Err(GenErr::NoMemory),
        };
    }
    Ok(ranked)
}

/// The answer of all stages of a frame. Fails only if memory runs out.
pub(crate) fn whole_answer(alloc: Global, frame: &Frame, ranked: Ranked) -> Result<Answer, NoMemory>
    requires ranked { (budget : ℕ)
        × IsRanked (problem_in frame.now) budget
        (last_stage (problem_in frame.now)) ranked.stages.items ranked.counts.items
        (states_of ranked.left.kept.table) ranked.left.kept.states.items ranked.left.order.items }
    ensures right { IfOk result (λ answer. IsRight (problem_in frame.now) answer) }
    ensures fitting { IfOk result (λ answer. HaveFittingKinds (problem_in frame.now) answer) }
    ensures joined { IfOk result (λ answer. HaveJoinedArcs answer.automaton.states.items) }
{
    let own = frame.form.copy(alloc)?;
    let Ranked {
        stages,
        counts,
        left,
        kinds: _,
    } = ranked;
    let Ending { example, automaton } = ending_of(alloc, frame, &left)?;
    Ok(Answer {
        form: own,
        counts,
        example,
        stages,
        automaton,
    })
}
