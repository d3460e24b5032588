//! Words of forms: what a grammar reads a word as, on a command line or in a lexicon.
//!
//! A word that begins with `=` spells a form by the letters of the grammar. Any other is the text
//! of a timeline over the input tiers, of at most 64 columns. The layers above use [`read_form`],
//! and what they get meets what the generator requires of a form.
//!
//! The definitions in `specs/` say which form a word is read as, and why one is refused.
#![tactic(auto)]

mod form;
mod reading;

pub use form::read_form;
pub use reading::each_word_has_one_form;
