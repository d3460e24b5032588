//! Tables of states with weighted arcs: automata over the columns of timelines.
//!
//! A table is made once of all its states and is only read from then on. It accepts a timeline if
//! a path from state 0 whose arcs' classes contain the timeline's columns in turn ends at an
//! accepting state. `Incoming` has the same moves reversed, for searches backward from the
//! accepting states. The least distances, the pruning to best paths and the first timelines are
//! proved for the definitions of runs, words and their weights in `specs/`. Below are the classes
//! of columns and the weights; above, the staged generator makes the tables.
#![tactic(auto)]

mod arc;
mod incoming;
mod incoming_move;
mod state;
mod table;
mod turning;

pub use arc::TableArc;
pub use incoming::Incoming;
pub use incoming_move::IncomingMove;
pub use state::TableState;
pub use table::Table;

#[cfg(test)]
mod tests;
