//! How large right answers are, and that their texts are read again, as laws over definitions. The
//! functions do nothing: each says by its contract what holds of every right answer, and nothing is
//! built.
//!
//! A right answer is small: its counts, its example and its potentials are bounded by how many kinds it
//! lists. So it is orderly if its stages have at most 65,536 kinds: its text is within the limits of
//! what is read, and is read again. The crate builds on the definitions of `violation` and
//! `answer_text`, and on the laws of kinds and of checked answers.
#![tactic(auto)]

mod orderly;
mod small;

pub use orderly::right_answers_are_orderly;
pub use small::right_answers_are_small;
