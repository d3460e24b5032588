ghost use Rattle.std.specs.Prelude.{◌≤◌, length, IfOk, IfErr};
ghost use Rattle.std.specs.Str.Lines.{lines};
ghost use Rattle.tier_core.specs.Tables.{tiers_of_table};
ghost use Rattle.tableau.specs.Rows.{AreRowsOf, IsTextRefusal};
ghost use Rattle.violation.specs.Problems.{problem_from};

use crate::line::cut_line;
use crate::row::read_line;
use crate::rows_err::RowsErr;
use grammar_reader::Grammar;
use std::alloc::Global;
use tier_core::Timeline;

/// Reads the text of a rows file, which has at most 4,194,304 bytes: on each line that is not blank
/// a candidate of the form, over the tiers of the grammar and with at most 4,096 columns.
///
/// A line ends at a line feed or at the end of the text, and a carriage return before the line feed
/// is dropped. Lines that are empty or have only spaces are ignored, but counted. The first
/// line that has a cause gives it, with its number from 1. On one line the causes are tried in this
/// order.
///
/// - `TooMany`: this is the 33rd row.
/// - `Form`: the line is not the text of such a timeline; the cause of `read_timeline`.
/// - `NotCandidate`: the timeline is not a candidate of the form.
///
/// `NoMemory` may occur in place of any answer.
pub fn read_rows(
    alloc: Global,
    grammar: &Grammar,
    form: &Timeline,
    bytes: &[u8],
) -> Result<Vec<Timeline>, RowsErr>
    requires { length bytes.now ≤ 4194304 }
    ensures ok { IfOk result
        (λ rows.
        AreRowsOf (problem_from grammar.now.tiers grammar.now.constraints.items form.now)
        (lines bytes.now) rows.items) }
    ensures err { IfErr result
        (IsTextRefusal (problem_from grammar.now.tiers grammar.now.constraints.items form.now)
        (lines bytes.now)) }
{
    let mut rows = Vec::new(alloc);
    let mut rest = bytes;
    let mut number = 0;
    while !rest.is_empty() {
        let (line, behind) = cut_line(rest);
        rest = behind;
        number += 1;
        read_line(alloc, grammar, form, number, line, &mut rows)?;
    }
    Ok(rows)
}
