//! The theory of checked answers, as laws over definitions. The functions do nothing: each says by
//! its contract what holds of every answer, and nothing is built or searched.
//!
//! A certified answer is one in which a checker, which looks at one move at a time, finds no
//! fault. It is sound: its automaton accepts exactly the optimal candidates, and its counts are
//! the least. The potentials of a stage bound from below what every candidate still violates, and
//! the example reaches the bound. So a candidate that the constraints before have left is left by
//! this one exactly if the potential falls on each of its columns by just what the column costs.
//! Whoever wrote the answer, none of this depends on how it was found. The crate builds on the
//! definitions of `violation` and `answer_text`, and on no table.
#![tactic(auto)]

mod certified;
pub mod examples;
mod right;

pub use certified::certified_answers_are_sound;
pub use right::{right_answers_are_certified, right_answers_are_sound};
