ghost use Rattle.std.specs.Prelude.{◌≡◌};
ghost use Rattle.tableau.specs.Layout.{column, firsts, tableau_lines, widest};

use crate::lengths::{name_length, row_length, text_length};
use crate::table::Tableau;

/// The width of the field of the first texts.
pub(crate) fn first_width(tableau: &Tableau) -> u128
    ensures { result ≡ widest (firsts (tableau_lines tableau.now)) }
{
    let rows = tableau.rows.as_slice();
    let mut width = text_length(&tableau.form);
    for row in rows {
        width = width.max(text_length(&row.timeline));
    }
    width
}

/// The width of the field of a column.
pub(crate) fn column_width(tableau: &Tableau, place: usize) -> usize
    ensures { result ≡ widest (column place (tableau_lines tableau.now)) }
{
    let rows = tableau.rows.as_slice();
    let mut width = name_length(tableau.names.as_slice(), place);
    for row in rows {
        width = width.max(row_length(row, place));
    }
    width
}
