//! Timelines as text, and forms that are spelled by the letters of a grammar.
//!
//! A text has one symbol byte for each tier of a column, and one space between two columns; the
//! timeline without columns is written as the word `empty`. The layers above read underlying and
//! surface forms, examples and rows with [`read_timeline`] and words that begin with `=` with
//! [`read_spelled`], and write with [`put_timeline`], or with [`push_timeline`] as part of a longer
//! text. A timeline that was read is well formed, reduced, of the given width and within the limit,
//! as those layers require of a form.
//!
//! `specs/` defines the text of a timeline, the timeline of a text, the cause of a text that has
//! none, and the form that letters spell.
#![tactic(auto)]

mod form_err;
mod letter;
mod pieces;
mod put;
mod read;
mod reading;
mod spelled;
#[cfg(test)]
mod tests;
mod tiers;

pub use form_err::FormErr;
pub use letter::Letter;
pub use put::{push_column, push_timeline, put_timeline};
pub use read::read_timeline;
pub use reading::{each_text_has_one_reading, each_word_has_one_spelling, written_is_read_again};
pub use spelled::read_spelled;
