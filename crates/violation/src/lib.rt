//! What a constraint counts on a timeline, violation vectors, and which timelines are candidates of
//! a form; with the definitions of violations, candidates, optima, kinds of prefixes, stages and
//! the moves of kinds.
//!
//! The crate builds on `tier_core`. The layers above use its functions and the definitions in
//! `specs/`. From reading a grammar on, the flow is: timelines and constraints (`tier_core`), what
//! they count (this crate), moves of kinds, pruning, answers.
//!
//! Source: the two families of constraints follow Eisner, Efficient Generation in Primitive
//! Optimality Theory (ACL 1997). What they count is this project's own.
#![tactic(auto)]

mod candidate;
mod column;
mod count;
pub mod examples;
#[cfg(test)]
mod tests;
mod vectors;

pub use candidate::{has_input_edge, has_input_part, is_candidate};
pub use column::{all_present, any_present, has_edge_among, opens_each, opens_some};
pub use count::{is_counted_at, violations};
pub use vectors::{vector, vector_cmp};
