ghost use Rattle.std.specs.Prelude.{◌≡◌, ◌<◌, ◌≤◌, ◌↔◌, ℕ, List, length, map, take, slice_index_or, None, All, Err, IfOk};
ghost use Rattle.arc_table.specs.Runs.{Accepts};
ghost use Rattle.arc_table.specs.States.{states_of};
ghost use Rattle.tier_core.specs.Tables.{tiers_of_table};
ghost use Rattle.violation.specs.Candidates.{IsForm};
ghost use Rattle.violation.specs.Problems.{problem_from, last_stage};
ghost use Rattle.violation.specs.Rests.{AreWholeKindsOver, AreWholeKindsWithin};
ghost use Rattle.answer_text.specs.RightOnce.{IsRightOnce};
ghost use Rattle.kind_moves.specs.Frames.{problem_in};
ghost use Rattle.kind_orders.specs.JoinedArcs.{HaveJoinedArcs};
ghost use Rattle.stage_tables.specs.Ranking.{IsWholeTable};
ghost use Rattle.ranked_gen.specs.FittingKinds.{HaveFittingKindsOnce};
ghost use Rattle.ranked_gen.specs.Once.{weight_found, once_node, IsOncePart};

use crate::ending::{Ending, ending_of};
use crate::gen_err::GenErr;
use crate::generator::count_kinds;
use crate::staged::Left;
use answer_text::{OnceAnswer, OnceNode};
use distances::to_final;
use grammar_reader::Grammar;
use kind_moves::Frame;
use kind_orders::order_of_kinds;
use prune_best::tight;
use stage_tables::{ExploreErr, StageTable, explore_all, ranked_table};
use std::alloc::{AllocError, Global};
use tier_core::{Kind, NoMemory, Timeline};
use weight_law::{Ranked, Weight};

/// What a single pass finds: its nodes, the least counts, and what accepts the optimal timelines.
#[derive(Drop)]
struct Once {
    nodes: Vec<OnceNode>,
    counts: Vec<u32>,
    left: Left,
}

/// A weight that is found, or zeros if there is none.
fn weight_found(weight: Option<Ranked>) -> Ranked
    ensures { result ≡ weight_found weight }
{
    match weight {
        None => Ranked::zero(),
        Some(weight) => weight,
    }
}

/// The nodes of kinds and their least weights, in an order of their numbers.
fn once_nodes(
    alloc: Global,
    kinds: &[Kind],
    least: &[Option<Ranked>],
    order: &[u32],
) -> Result<Vec<OnceNode>, AllocError>
    requires kinds { All (λ number. number < length kinds.now) order.now }
    requires least { All (λ number. number < length least.now) order.now }
    ensures { IfOk result (λ nodes. nodes.items ≡ map (once_node kinds.now least.now) order.now) }
{
    let mut nodes = Vec::new(alloc);
    for number in order {
        nodes.push(OnceNode {
            kind: kinds[*number as usize],
            potential: weight_found(least[*number as usize]),
        })?;
    }
    Ok(nodes)
}

/// The first parts of a weight.
fn first_parts(alloc: Global, weight: &Ranked, count: usize) -> Result<Vec<u32>, AllocError>
    requires { count ≤ 24 }
    ensures { IfOk result (λ counts. counts.items ≡ take count weight.now.parts) }
{
    Vec::from_slice(alloc, &weight.parts()[..count])
}

/// What a single pass finds in the table of all candidates. Fails only if memory runs out.
fn single_pass(alloc: Global, frame: &Frame, found: &StageTable) -> Result<Once, NoMemory>
    requires { IsWholeTable frame.now found.now.kinds.items (states_of found.now.table) }
    ensures { IfOk result
        (λ once.
        IsOncePart frame.now once.nodes.items once.counts.items
        (states_of once.left.kept.table) once.left.kept.states.items once.left.order.items) }
{
    let table = ranked_table(alloc, frame, found)?;
    let least = to_final(alloc, &table)?;
    let number = frame.grammar.constraints.len();
    let order = order_of_kinds(alloc, &frame.shape, number as u32, &found.kinds)?;
    let Ok(nodes) = once_nodes(alloc, &found.kinds, &least, &order) else {
        return Err(NoMemory);
    };
    let Ok(counts) = first_parts(alloc, &weight_found(least[0]), number) else {
        return Err(NoMemory);
    };
    let kept = tight(alloc, &table, &least)?;
    Ok(Once {
        nodes,
        counts,
        left: Left { kept, order },
    })
}

/// The answer of a single pass. Fails only if memory runs out.
fn once_answer(alloc: Global, frame: &Frame, found: &StageTable) -> Result<OnceAnswer, NoMemory>
    requires { IsWholeTable frame.now found.now.kinds.items (states_of found.now.table) }
    ensures right { IfOk result (λ answer. IsRightOnce (problem_in frame.now) answer) }
    ensures fitting { IfOk result (λ answer. HaveFittingKindsOnce (problem_in frame.now) answer) }
    ensures joined { IfOk result (λ answer. HaveJoinedArcs answer.automaton.states.items) }
{
    let form = frame.form.copy(alloc)?;
    let Once {
        nodes,
        counts,
        left,
    } = single_pass(alloc, frame, found)?;
    let Ending { example, automaton } = ending_of(alloc, frame, &left)?;
    Ok(OnceAnswer {
        form,
        counts,
        example,
        nodes,
        automaton,
    })
}

/// The answer of a single pass for the form of a frame, within the budget.
fn once_in(alloc: Global, frame: &Frame, budget: u32) -> Result<OnceAnswer, GenErr>
    requires some { 1 ≤ budget }
    requires few_kinds { budget ≤ 65536 }
    ensures right { IfOk result (λ answer. IsRightOnce (problem_in frame.now) answer) }
    ensures fitting { IfOk result (λ answer. HaveFittingKindsOnce (problem_in frame.now) answer) }
    ensures joined { IfOk result (λ answer. HaveJoinedArcs answer.automaton.states.items) }
    ensures within { IfOk result (λ answer. AreWholeKindsWithin (problem_in frame.now) budget) }
    ensures over { (stage : ℕ) → result ≡ Err (GenErr.Budget stage)
        → (stage ≡ last_stage (problem_in frame.now))
        × AreWholeKindsOver (problem_in frame.now) budget }
{
    let stage = frame.grammar.constraints.len() as u32;
    match explore_all(alloc, frame, stage, budget) {
        Ok(found) => once_answer(alloc, frame, &found).map_err(|_| GenErr::NoMemory),
        Err(ExploreErr::OverBudget) => Err(GenErr::Budget { stage }),
        Err(ExploreErr::NoMemory) => Err(GenErr::NoMemory),
    }
}

/// The answer of a single pass for a grammar and a form: it explores all candidates under all
/// constraints at once, and finds the least vectors of counts in one table. `Budget` exactly when
/// the prefixes of candidates have more kinds under all constraints than the budget, with the number
/// of constraints as its stage. The arcs of its automaton are joined, as those of `generate` are.
///
/// Form and budget are those that `generate` takes, and both accept the same timelines. `NoMemory`
/// occurs only if memory runs out.
pub fn generate_once(
    alloc: Global,
    grammar: &Grammar,
    form: &Timeline,
    budget: u32,
) -> Result<OnceAnswer, GenErr>
    requires form { IsForm (tiers_of_table grammar.now.tiers) form.now }
    requires short { length form.now ≤ 64 }
    requires some { 1 ≤ budget }
    requires few { budget ≤ 65536 }
    ensures right { IfOk result
        (λ answer.
        IsRightOnce (problem_from grammar.now.tiers grammar.now.constraints.items form.now)
        answer) }
    ensures fitting { IfOk result
        (λ answer.
        HaveFittingKindsOnce
        (problem_from grammar.now.tiers grammar.now.constraints.items form.now) answer) }
    ensures joined { IfOk result (λ answer. HaveJoinedArcs answer.automaton.states.items) }
    ensures within { IfOk result
        (λ answer.
        AreWholeKindsWithin
        (problem_from grammar.now.tiers grammar.now.constraints.items form.now) budget) }
    ensures over { (stage : ℕ) → result ≡ Err (GenErr.Budget stage)
        → (stage ≡ length grammar.now.constraints.items)
        × AreWholeKindsOver
        (problem_from grammar.now.tiers grammar.now.constraints.items form.now) budget }
{
    let free = grammar.tiers.free_count() as u32;
    let kinds = count_kinds(form.len() as u32 + 1, free);
    if kinds > budget {
        let stage = grammar.constraints.len() as u32;
        return Err(GenErr::Budget { stage });
    }
    match Frame::new(alloc, grammar, form) {
        Ok(frame) => once_in(alloc, &frame, budget),
        Err(_) => Err(GenErr::NoMemory),
    }
}
