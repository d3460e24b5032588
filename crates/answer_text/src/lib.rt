//! Answers: what `generate` finds for a grammar and a form, what it means that an answer is right,
//! and the text of an answer.
//!
//! An answer has the form, the least counts, the first optimal timeline, a stage of kinds with
//! potentials for each constraint, and an automaton of all optimal timelines. The layers above make
//! right answers, and write them with `put_answer`, or parts of them with `put_counts` and
//! `put_shown`. `push_kind` and `push_numbers` serve other writers of kinds and numbers.
//! Representing sets of candidates as automata follows Ellison, Phonological Derivation in
//! Optimality Theory (COLING 1994).
#![tactic(auto)]

mod answer;
mod automaton;
mod automaton_writer;
mod class;
mod kind;
mod number;
mod once_answer;
#[cfg(test)]
mod once_tests;
mod once_writer;
mod parts;
mod put;
mod stage;
mod stage_writer;
#[cfg(test)]
mod tests;
mod widths;

pub use answer::Answer;
pub use automaton::{ArcLine, Automaton, StateLine};
pub use kind::push_kind;
pub use number::push_numbers;
pub use once_answer::{OnceAnswer, OnceNode};
pub use once_writer::put_once;
pub use parts::{put_counts, put_shown};
pub use put::put_answer;
pub use stage::{Node, Stage};
pub use widths::free_count;
