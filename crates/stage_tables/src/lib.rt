//! The tables of a stage, of which the generator prunes one after another.
//!
//! First all candidates are explored, from the start with the class of all columns. What the
//! constraints before have left is a table whose states stand for kinds. Exploring it under one more
//! constraint gives a table of the same timelines: its states are the kinds that the moves lead to
//! under that constraint too, and its moves weigh what they cost under it. A move has a class of
//! columns, and is parted where these lead to different kinds or cost differently. Below are the moves
//! of kinds and the tables of arcs; above, the generator prunes this table to its words of least
//! weight, and explores again.
//!
//! That the candidates of a form are pruned constraint by constraint on an automaton goes back to
//! Ellison, Phonological Derivation in Optimality Theory (COLING 1994); that states are kinds is
//! this project's own.
#![tactic(auto)]

mod arcs;
mod exploration;
mod exploring;
mod last_arcs;
mod listed;
mod pieces;
mod ranking;
mod stage_table;
mod weighing;
mod whole;

pub use exploration::{explore, explore_all};
pub use ranking::ranked_table;
pub use stage_table::{ExploreErr, StageTable};
pub use weighing::weigh;
