//! Lexicon files: entries with names and underlying forms, in a text of TOML.
//!
//! The key `entry` of a file is an array of tables, and each of them has the strings `name` and
//! `form`. A form is read in the same way as the word of a form on a command line. The layers
//! above take the entries from [`read_lexicon`]: their names are distinct, and each form meets
//! what the generator requires of one.
//!
//! The definitions in `specs/` say what the table of a file contains (`Elements`), which entries
//! its elements are (`Entries`), and which lexicon a file is (`Lexicons`). The format is this
//! project's own; what a text of TOML means is defined in the crate `toml`.
#![tactic(auto)]

mod element;
mod entry;
pub mod examples;
mod lex_err;
mod read;
mod reading;
#[cfg(test)]
mod tests;

pub use entry::Entry;
pub use lex_err::LexErr;
pub use read::read_lexicon;
pub use reading::each_file_has_one_lexicon;
