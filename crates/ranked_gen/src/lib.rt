//! The generator: from a grammar and an underlying form to a right answer, within a budget of
//! kinds.
//!
//! Stage 0 counts no constraint: it explores all candidates, and its kinds are all pairs of a place in
//! the form and a set of open free tiers. Each further stage explores the table that the stage before
//! has left under one more constraint, finds what remains to be counted from each kind, and keeps the
//! timelines that count least. The answer's automaton is what the last stage leaves, and its
//! example the first timeline of it. The layer above uses `generate` and its promises: an answer
//! is right, and `Budget` occurs exactly when a stage has more kinds than the budget, with the
//! first such stage.
//!
//! A second generator, `generate_once`, prunes nothing on its way: it explores all candidates under all
//! constraints at once, weighs each move by the vector of what it costs, and prunes one table to its
//! timelines of least weight. Both give the same counts and example, and accept the same timelines.
//!
//! That the candidates of a form are the paths of an automaton, which is pruned constraint by
//! constraint, goes back to Ellison, Phonological Derivation in Optimality Theory (COLING 1994).
#![tactic(auto)]

mod agreement;
mod ending;
mod gen_err;
mod generator;
mod once;
mod ranked;
mod staged;
#[cfg(test)]
mod tests;

pub use agreement::both_generators_agree;
pub use gen_err::GenErr;
pub use generator::generate;
pub use once::generate_once;
