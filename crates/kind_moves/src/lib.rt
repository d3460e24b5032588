//! The moves of kinds as code: how the kind of a prefix goes on by one more column, or by all
//! columns of a class at once.
//!
//! A [`Frame`] borrows a grammar and a form. From the kind at which it starts it goes on by columns,
//! one at a time, for the first constraints of any stage. Along its moves the layers above explore
//! the candidates of the form: a timeline leads from the start to a final kind exactly if it is a
//! candidate. [`Frame::pieces`] parts a class of columns by where they lead and what they cost,
//! without looking at single columns: a constraint, an open tier and a phase each part a class by
//! one test. [`Frame::last_parts`] parts a class that only the last constraint can part, and
//! [`Frame::piece`] tells where one part leads and what it costs. The crate stands on the types of
//! `tier_core`, on classes, on grammars, and on the definition of moves in `violation`.
//!
//! That the candidates of a form are the paths of an automaton is after Ellison, Phonological
//! Derivation in Optimality Theory (COLING 1994); that its states are kinds is our own design.
#![tactic(auto)]

mod all_moves;
mod ask;
mod asked;
mod boxes;
mod cost;
mod cost_tests;
mod costing;
mod fit;
mod fit_boxes;
mod fitting;
mod frame;
mod last_parts;
mod last_tests;
mod laws;
mod leaving;
mod mask;
mod move_tests;
mod open;
mod parting;
mod phase;
mod phase_masks;
mod piece;
mod pieces;
#[cfg(test)]
mod tests;

pub use frame::Frame;
pub use last_tests::LastTests;
pub use laws::{
    costs_are_violations, kinds_are_told_apart, kinds_go_by_moves, moves_are_of_candidates,
};
pub use piece::Piece;
