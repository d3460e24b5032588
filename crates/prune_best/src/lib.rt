//! The part of a table that accepts exactly its words of least weight.
//!
//! Given the least weights to an accepting state, an arc is kept if its weight and the least
//! weight from its target add up to the least weight from its source. Every path over such arcs
//! from the start is one of least weight, and every path of least weight goes over such arcs. The
//! staged generator prunes by one constraint after another in this way, and the last table is the
//! automaton of its answer.
#![tactic(auto)]

mod moves;
mod names;
mod prune;
mod tight_table;

pub use prune::tight;
pub use tight_table::Tight;
