//! From what a staged generator finds to the order in which an answer is written.
//!
//! A generator numbers kinds in the order in which it finds them, and an answer lists them in kind
//! order. `order_of_kinds` sorts the numbers, `ranks` inverts the order, `stage_of` makes the nodes
//! of a stage, and `automaton_of` the lines of an automaton from the table that is left after
//! pruning.
//!
//! The arcs of an automaton are joined: any two from one state to one target differ in the sets of
//! at least two tiers, so that no two of them could be written as one. Moves are sorted by target,
//! and those to one target joined, so that no other pairs are compared. Everything is linear except
//! for sorting and joining. Below are classes, kinds, tables and answers; above, the generator.
#![tactic(auto)]

mod arcs;
mod automaton;
mod inverse;
mod joined_arcs;
mod lines;
mod order;
mod stage;
#[cfg(test)]
mod tests;

pub use automaton::automaton_of;
pub use inverse::ranks;
pub use order::{numbers_below, order_of_kinds};
pub use stage::stage_of;
