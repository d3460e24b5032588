//! The separate checker of answers. It believes no one: it looks at the moves of each listed kind one by
//! one, and answers with the first fault or with Yes. It runs no search, and shares with the generator
//! the definitions of kinds and moves, and none of its code.
//!
//! It has the definitions of the faults and of the order in which they are gone through
//! (`specs/Faults`, `Places`, `FirstFaults`), the laws that an answer is certified exactly if no fault is
//! in it, that right answers have none, and that one fault alone comes first (`laws`), and its steps,
//! each with the whole contract: the form, the numbers, the example and the counts (`head`), the order of
//! a stage's nodes (`order`), its start (`start`), the potential and the moves of each node
//! (`node_check`), the start's potential (`stage_check`), and all stages (`stages`); of a state the
//! targets of its arcs, its mark, the columns that are in two arcs, and its arcs (`state_check`), and all
//! states (`states`). Moves are looked at by classes. At stage 0 the columns that fit a kind are parted by
//! the tiers that are open after them (`parted`); later what is left of the moves of the stage before is
//! parted by the last constraint alone (`kept`), by tests that are made once for a stage (`ground`). After
//! a stage those moves are left that are tight there (`left`), and what is left after the last one are the
//! arcs that a state must have. `check` answers with a verdict.
#![tactic(auto)]

mod alike;
mod boxes;
mod column_tests;
mod costs;
mod cut;
mod differing;
mod fault;
mod final_kind;
mod find;
mod find_state;
mod fit_boxes;
mod fitting;
mod ground;
mod head;
mod kept;
mod kept_piece;
mod laws;
mod least;
mod left;
mod moves;
mod node_check;
mod open;
mod order;
mod overlap;
mod parted;
mod parting;
mod possible;
mod potentials;
mod source;
mod stage_check;
mod stages;
mod start;
mod state_check;
mod states;
mod stop;
mod subject;
mod target;
mod uniform;
mod whole;

pub use alike::alike_columns_move_alike;
pub use fault::{Fault, Verdict};
pub use laws::{
    certified_answers_are_faultless, faultless_answers_are_certified, faultless_answers_are_sound,
    faults_are_in_what_is_seen, one_fault_comes_first, right_answers_are_faultless,
};
pub use whole::check;
