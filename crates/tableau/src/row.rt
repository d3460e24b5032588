ghost use Rattle.std.specs.Prelude.{◌≡◌, ◌+◌, ◌<◌, ◌≤◌, ◌∷◌, [], ◌++◌, List, ℕ, length, ◌↔◌, IsTrue, IfOk, IfErr, OnOk};
ghost use Rattle.tableau.specs.Rows.{AreRowsOf, IsLineRefusal, IsRowOf, IsTextRefusal};
ghost use Rattle.violation.specs.Candidates.{IsCandidate};
ghost use Rattle.violation.specs.Problems.{problem_from};

use crate::line::is_blank;
use crate::rows_err::{RowsCause, RowsErr};
use grammar_reader::Grammar;
use std::alloc::Global;
use tier_core::Timeline;
use timeline_text::{FormErr, read_timeline};
use violation::is_candidate;

/// How many rows a text may have.
const MOST_ROWS: usize = 32;

/// How many columns a row may have.
const MOST_COLUMNS: usize = 4096;

/// Whether a timeline is a candidate of a form over the tiers of a grammar.
fn is_row(grammar: &Grammar, form: &Timeline, timeline: &Timeline) -> bool
    ensures { IsTrue result
        ↔ IsCandidate
        (problem_from grammar.now.tiers grammar.now.constraints.items form.now) timeline.now }
{
    is_candidate(&grammar.tiers, form, timeline)
}

/// Reads a line that is not blank, with this number, after so many rows.
fn read_row(
    alloc: Global,
    grammar: &Grammar,
    form: &Timeline,
    number: u32,
    before: usize,
    line: &[u8],
) -> Result<Timeline, RowsErr>
    ensures ok { IfOk result
        (IsRowOf (problem_from grammar.now.tiers grammar.now.constraints.items form.now) line.now) }
    ensures few { OnOk result (before < 32) }
    ensures err { IfErr result
        (IsLineRefusal
        (problem_from grammar.now.tiers grammar.now.constraints.items form.now) number before
        line.now) }
{
    if before >= MOST_ROWS {
        return Err(RowsErr::At {
            row: number,
            cause: RowsCause::TooMany,
        });
    }
    let width = grammar.tiers.kinds.len() as u32;
    let timeline = match read_timeline(alloc, width, MOST_COLUMNS, line) {
        Ok(timeline) => timeline,
        Err(FormErr::NoMemory) => return Err(RowsErr::NoMemory),
        Err(cause) => {
            return Err(RowsErr::At {
                row: number,
                cause: RowsCause::Form(cause),
            });
        }
    };
    if !is_row(grammar, form, &timeline) {
        return Err(RowsErr::At {
            row: number,
            cause: RowsCause::NotCandidate,
        });
    }
    Ok(timeline)
}

/// Reads the line with this number after the lines before it, which gave these rows.
pub(crate) fn read_line(
    alloc: Global,
    grammar: &Grammar,
    form: &Timeline,
    number: u32,
    line: &[u8],
    rows: &mut Vec<Timeline>,
) -> Result<(), RowsErr>
    ensures ok { OnOk result
        ((front : List (List ℕ))
        → AreRowsOf
        (problem_from grammar.now.tiers grammar.now.constraints.items form.now) front rows.old.items
        → AreRowsOf (problem_from grammar.now.tiers grammar.now.constraints.items form.now)
        (front ++ line.now ∷ []) rows.new.items) }
    ensures err { IfErr result
        (λ e. (front behind : List (List ℕ)) → length front + 1 ≡ number
        → AreRowsOf
        (problem_from grammar.now.tiers grammar.now.constraints.items form.now) front rows.old.items
        → IsTextRefusal (problem_from grammar.now.tiers grammar.now.constraints.items form.now)
        (front ++ line.now ∷ behind) e) }
{
    if is_blank(line) {
        return Ok(());
    }
    let row = read_row(alloc, grammar, form, number, rows.len(), line)?;
    rows.push(row)?;
    Ok(())
}
