ghost use Rattle.std.specs.Prelude.{◌≡◌, map};
ghost use Rattle.std.specs.List.{flat_map};
ghost use Rattle.std.specs.String.{string_bytes};
ghost use Rattle.outside.specs.Writers.{Puts, Pushes};
ghost use Rattle.tableau.specs.Layout.{count_texts, fields, firsts, head_line, line_text, row_mark, row_line, tableau_lines, tableau_text, widest};

use crate::fields::{push_count, push_first, push_name};
use crate::table::{Tableau, TableauRow};
use crate::widths::{column_width, first_width};
use outside::{OutBuffer, Sink, WriteErr};

/// What comes before a row.
fn row_mark(worse: Option<u32>) -> &'static [u8]
    ensures { result.now ≡ row_mark worse }
{
    if worse.is_some() { b"  " } else { b"> " }
}

/// Appends names, each in the field of its column.
fn push_names<O: Sink>(
    out: &mut OutBuffer,
    sink: &mut O,
    tableau: &Tableau,
    names: &[String],
) -> Result<(), WriteErr>
    ensures { Pushes O.Sink sink.old sink.new out.old out.new
        (fields (tableau_lines tableau.now) 0 (map string_bytes names.now)) result }
{
    for (place, name) in names.iter().enumerate() {
        let width = column_width(tableau, place);
        push_name(out, sink, width, name.as_bytes())?;
    }
    Ok(())
}

/// Appends the counts of a row, each in the field of its column.
fn push_counts<O: Sink>(
    out: &mut OutBuffer,
    sink: &mut O,
    tableau: &Tableau,
    worse: Option<u32>,
    counts: &[u32],
) -> Result<(), WriteErr>
    ensures { Pushes O.Sink sink.old sink.new out.old out.new
        (fields (tableau_lines tableau.now) 0 (count_texts worse 0 counts.now)) result }
{
    for (place, count) in counts.iter().enumerate() {
        let width = column_width(tableau, place);
        push_count(out, sink, width, worse, place, *count)?;
    }
    Ok(())
}

/// Appends the line of the form and the names.
fn push_head<O: Sink>(
    out: &mut OutBuffer,
    sink: &mut O,
    tableau: &Tableau,
    width: u128,
) -> Result<(), WriteErr>
    requires { width ≡ widest (firsts (tableau_lines tableau.now)) }
    ensures { Pushes O.Sink sink.old sink.new out.old out.new
        (line_text (tableau_lines tableau.now) (head_line tableau.now)) result }
{
    push_first(out, sink, b"  ", width, &tableau.form)?;
    push_names(out, sink, tableau, &tableau.names)?;
    out.push(sink, b"\n")
}

/// Appends the line of a row.
fn push_row<O: Sink>(
    out: &mut OutBuffer,
    sink: &mut O,
    tableau: &Tableau,
    width: u128,
    row: &TableauRow,
) -> Result<(), WriteErr>
    requires { width ≡ widest (firsts (tableau_lines tableau.now)) }
    ensures { Pushes O.Sink sink.old sink.new out.old out.new
        (line_text (tableau_lines tableau.now) (row_line row.now)) result }
{
    push_first(out, sink, row_mark(row.worse), width, &row.timeline)?;
    push_counts(out, sink, tableau, row.worse, &row.counts)?;
    out.push(sink, b"\n")
}

/// Appends the lines of rows.
fn push_rows<O: Sink>(
    out: &mut OutBuffer,
    sink: &mut O,
    tableau: &Tableau,
    width: u128,
    rows: &[TableauRow],
) -> Result<(), WriteErr>
    requires { width ≡ widest (firsts (tableau_lines tableau.now)) }
    ensures { Pushes O.Sink sink.old sink.new out.old out.new
        (flat_map (line_text (tableau_lines tableau.now)) (map row_line rows.now)) result }
{
    for row in rows {
        push_row(out, sink, tableau, width, row)?;
    }
    Ok(())
}

/// Appends the lines of a tableau.
fn push_lines<O: Sink>(out: &mut OutBuffer, sink: &mut O, tableau: &Tableau) -> Result<(), WriteErr>
    ensures { Pushes O.Sink sink.old sink.new out.old out.new (tableau_text tableau.now) result }
{
    let width = first_width(tableau);
    push_head(out, sink, tableau, width)?;
    push_rows(out, sink, tableau, width, &tableau.rows)
}

/// Writes the text of a tableau. It allocates nothing except what the sink allocates in its writes,
/// so the width of a column, which has a text in each line, is found again for each of these texts.
///
/// The first line has the form and the names of the constraints, and each further line a row: `> `
/// if the row is optimal, its timeline, and its counts, with `!` after the one at the first worse
/// constraint. The first texts are aligned to the left in a field, and the others to the right in
/// the field of their column, after one space.
///
/// After an error the sink has taken a prefix of the text. `Failed` is returned only if the sink's
/// count of faults rose.
pub fn put_tableau<O: Sink>(sink: &mut O, tableau: &Tableau) -> Result<(), WriteErr>
    ensures { Puts O.Sink sink.old sink.new (tableau_text tableau.now) result }
{
    let mut out = OutBuffer::new();
    push_lines(&mut out, sink, tableau)?;
    out.flush(sink)
}
