ghost use Rattle.std.specs.Prelude.{◌≡◌, ◌≤◌, ◌∷◌, length, map, All, IfOk, None};
ghost use Rattle.tier_core.specs.Tables.{tiers_of_table};
ghost use Rattle.violation.specs.Candidates.{IsCandidate};
ghost use Rattle.answer_text.specs.Right.{IsRight};
ghost use Rattle.tableau.specs.Tableaux.{IsTableauOf, IsTableauRow, names_seen};
ghost use Rattle.violation.specs.Problems.{problem_from};

use crate::compare::compared_row;
use crate::copies::{copied_counts, names_of};
use crate::table::{Tableau, TableauRow};
use answer_text::Answer;
use grammar_reader::Grammar;
use std::alloc::Global;
use tier_core::{NoMemory, Timeline};

/// The example of a right answer as a row.
fn example_row(alloc: Global, answer: &Answer) -> Result<TableauRow, NoMemory>
    ensures timeline { IfOk result (λ row. row.timeline ≡ answer.now.example) }
    ensures counts { IfOk result (λ row. row.counts.items ≡ answer.now.counts.items) }
    ensures worse { IfOk result (λ row. row.worse ≡ None) }
{
    let timeline = answer.example.copy(alloc)?;
    let counts = copied_counts(alloc, &answer.counts)?;
    Ok(TableauRow {
        timeline,
        counts,
        worse: None,
    })
}

/// The rows of a tableau: the example, and then each of the timelines.
fn rows_of(
    alloc: Global,
    grammar: &Grammar,
    answer: &Answer,
    timelines: &[Timeline],
) -> Result<Vec<TableauRow>, NoMemory>
    requires right { IsRight
        (problem_from grammar.now.tiers grammar.now.constraints.items answer.now.form) answer.now }
    requires candidates { All
        (IsCandidate
        (problem_from grammar.now.tiers grammar.now.constraints.items answer.now.form))
        timelines.now }
    requires few_columns { All (λ T. length T ≤ 65536) timelines.now }
    ensures timelines { IfOk result
        (λ rows. map (λ row. row.timeline) rows.items ≡ answer.now.example ∷ timelines.now) }
    ensures each { IfOk result
        (λ rows.
        All
        (IsTableauRow
        (problem_from grammar.now.tiers grammar.now.constraints.items answer.now.form)
        answer.now.counts.items) rows.items) }
{
    let mut rows = Vec::new(alloc);
    if rows.push(example_row(alloc, answer)?).is_err() {
        return Err(NoMemory);
    }
    for timeline in timelines {
        let row = compared_row(alloc, &grammar.constraints, &answer.counts, timeline)?;
        if rows.push(row).is_err() {
            return Err(NoMemory);
        }
    }
    Ok(rows)
}

/// The tableau of a right answer and candidates of its form: the example is the first row, and then
/// each candidate has one, with its counts and the first constraint at which it is worse than the
/// least. Each candidate has at most 65,536 columns. It fails only if memory runs out.
pub fn tableau(
    alloc: Global,
    grammar: &Grammar,
    answer: &Answer,
    rows: &[Timeline],
) -> Result<Tableau, NoMemory>
    requires right { IsRight
        (problem_from grammar.now.tiers grammar.now.constraints.items answer.now.form) answer.now }
    requires candidates { All
        (IsCandidate
        (problem_from grammar.now.tiers grammar.now.constraints.items answer.now.form)) rows.now }
    requires few_columns { All (λ T. length T ≤ 65536) rows.now }
    ensures { IfOk result
        (IsTableauOf (names_seen grammar.now.constraints.items)
        (problem_from grammar.now.tiers grammar.now.constraints.items answer.now.form) rows.now) }
{
    let form = answer.form.copy(alloc)?;
    let names = names_of(alloc, &grammar.constraints)?;
    let rows = rows_of(alloc, grammar, answer, rows)?;
    Ok(Tableau { form, names, rows })
}
