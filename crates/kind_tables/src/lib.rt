//! Tables of arcs whose states are named by kinds of prefixes, as laws. The functions do nothing: each
//! says by its contract what holds of every such table.
//!
//! A table that goes by kinds has a state for each of some kinds under the first r constraints, and
//! from it the moves that its kind makes. So a path ends at the kind of what it reads, a table with all
//! moves accepts exactly the candidates, and one that goes on by kinds under more constraints accepts
//! what it was found from. If its moves weigh what they cost under constraint r, a run weighs the
//! violations of what it reads; if they weigh what they cost under all constraints, its vector. The
//! crate stands on tables (`arc_table`) and on kinds (`violation`). What the words of least weight are
//! is said in `stage_laws`.
#![tactic(auto)]

mod first;
mod found;
mod names;
mod next;
mod vectors;
mod weights;

pub use first::complete_tables_accept_the_candidates;
pub use found::{cut_kinds_go_by_pruned_moves, found_tables_go_as_kinds};
pub use names::names_are_kinds;
pub use next::{cut_kinds_go_alike, named_tables_are_stage_tables};
pub use vectors::weights_are_vectors;
pub use weights::{moves_weigh_one_at_most, weights_are_violations};
