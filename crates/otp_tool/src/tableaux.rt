ghost use Rattle.std.specs.Prelude.{◌≡◌, ◌≢◌, ◌≤◌, ℕ, List, length, IfOk, IfErr};
ghost use Rattle.std.specs.Str.Lines.{lines};
ghost use Rattle.tier_core.specs.Tables.{tiers_of_table};
ghost use Rattle.violation.specs.Candidates.{IsForm};
ghost use Rattle.violation.specs.Problems.{problem_from};
ghost use Rattle.tableau.specs.Rows.{AreRowsOf};
ghost use Rattle.tableau.specs.Tableaux.{names_seen};
ghost use Rattle.grammar_reader.specs.Grammars.{value_of};
ghost use Rattle.otp_tool.specs.Steps.{IsMadeTableau, IsRefusal, IsTableauWork, RefusesFile, RefusesRows, change_of};

use crate::answer::{answer_for, form_of};
use crate::results::write_status;
use crate::second::load_second;
use command_line::Status;
use grammar_reader::Grammar;
use outside::{Shelf, Sink};
use std::alloc::Global;
use tableau::{RowsErr, Tableau, put_tableau, read_rows, tableau};
use tier_core::Timeline;

/// How many bytes a rows file may have.
const ROWS_LIMIT: u64 = 4194304;

/// Reads the rows of the file that word 3 names.
fn rows_of(
    alloc: Global,
    grammar: &Grammar,
    form: &Timeline,
    bytes: &[u8],
) -> Result<Vec<Timeline>, Status>
    requires { length bytes.now ≤ 4194304 }
    ensures ok { IfOk result (λ rows. AreRowsOf
        (problem_from grammar.now.tiers grammar.now.constraints.items form.now)
        (lines bytes.now) rows.items) }
    ensures err { IfErr result (IsRefusal (RefusesFile
        (problem_from grammar.now.tiers grammar.now.constraints.items form.now) bytes.now)) }
{
    match read_rows(alloc, grammar, form, bytes) {
        Ok(rows) => Ok(rows),
        Err(RowsErr::At { row, cause }) => Err(Status::RowsRefused {
            word: 3,
            row,
            cause,
        }),
        Err(RowsErr::NoMemory) => Err(Status::NoMemory),
    }
}

/// Makes the tableau of a form, whose rows are those of a file.
fn make_tableau(
    alloc: Global,
    grammar: &Grammar,
    form: &Timeline,
    bytes: &[u8],
    budget: u32,
) -> Result<Tableau, Status>
    requires form { IsForm (tiers_of_table grammar.now.tiers) form.now }
    requires short { length form.now ≤ 64 }
    requires some { 1 ≤ budget }
    requires few { budget ≤ 65536 }
    requires within { length bytes.now ≤ 4194304 }
    ensures ok { IfOk result (IsMadeTableau (names_seen grammar.now.constraints.items)
        (problem_from grammar.now.tiers grammar.now.constraints.items form.now) budget bytes.now) }
    ensures err { IfErr result (IsRefusal (RefusesRows
        (problem_from grammar.now.tiers grammar.now.constraints.items form.now) budget bytes.now)) }
{
    let rows = match rows_of(alloc, grammar, form, bytes) {
        Ok(rows) => rows,
        Err(status) => return Err(status),
    };
    let answer = match answer_for(alloc, grammar, form, budget) {
        Ok(answer) => answer,
        Err(status) => return Err(status),
    };
    match tableau(alloc, grammar, &answer, &rows) {
        Ok(made) => Ok(made),
        Err(_) => Err(Status::NoMemory),
    }
}

/// Sets the rows of a file beside the least counts of a form, and writes the tableau.
pub(crate) fn tabulate<F: Shelf, O: Sink>(
    alloc: Global,
    grammar: &Grammar,
    form: &str,
    rows: &str,
    budget: u32,
    shelf: &mut F,
    sink: &mut O,
) -> Status
    requires some { 1 ≤ budget }
    requires few { budget ≤ 65536 }
    ensures work { IsTableauWork (value_of grammar.now) form.now rows.now budget
        (change_of F.Shelf O.Sink shelf.old shelf.new sink.old sink.new) result }
    ensures held { (other : List ℕ) → F.held shelf.new other ≡ F.held shelf.old other }
    ensures never_falls { (other : List ℕ) → F.faults shelf.old other ≤ F.faults shelf.new other }
    ensures others { (other : List ℕ) → other ≢ rows.now
        → F.faults shelf.new other ≡ F.faults shelf.old other }
    ensures sink_never_falls { O.faults sink.old ≤ O.faults sink.new }
{
    let form = match form_of(alloc, grammar, form) {
        Ok(form) => form,
        Err(status) => return status,
    };
    let bytes = match load_second(alloc, shelf, 3, rows, ROWS_LIMIT) {
        Ok(bytes) => bytes,
        Err(status) => return status,
    };
    match make_tableau(alloc, grammar, &form, &bytes, budget) {
        Ok(made) => write_status(put_tableau(sink, &made)),
        Err(status) => status,
    }
}
