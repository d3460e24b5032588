//! Tableaux: rows files, rows that are compared with the least counts, and the text of a tableau.
//!
//! A rows file has a candidate of the form on each line, and is read by [`read_rows`]. From a right
//! answer and such rows [`tableau`] makes the tableau: the example and then the rows, each with its
//! violation vector and the first constraint at which it is worse than the least. [`put_tableau`]
//! writes it. The command `tableau` of the program calls these three, one after another.
//!
//! The definitions in `specs/` say which rows a text has and what its first cause is (`Rows`), what
//! a tableau of a form contains (`Tableaux`), and what its text is, field by field (`Layout`).
#![tactic(auto)]

mod compare;
mod copies;
mod fields;
mod lengths;
mod line;
mod make;
mod put;
mod reading;
mod row;
mod rows;
mod rows_err;
mod table;
#[cfg(test)]
mod tests;
mod widths;

pub use make::tableau;
pub use put::put_tableau;
pub use reading::each_rows_text_has_one_reading;
pub use rows::read_rows;
pub use rows_err::{RowsCause, RowsErr};
pub use table::{Tableau, TableauRow};
