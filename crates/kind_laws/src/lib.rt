//! Facts about prefixes, their kinds and what is counted, as laws over definitions. The functions
//! do nothing: the contract of each says what holds of every problem, and nothing is built.
//!
//! A kind tells of a prefix all that matters for how it goes on: prefixes of one kind may exchange
//! what follows them, and it adds the same to each count. A candidate that survives the constraints
//! before survives this one exactly if each of its steps is tight. What is counted so far depends
//! on the prefix alone, and a type that is repeated in a conjunction changes no count. A
//! stage has no more kinds than its places, open tiers and stretch implications allow. A column adds at
//! most 1 to a count, and a shortest way passes no kind twice; so the first optimal candidate has fewer
//! columns than there are kinds, and less remains to be counted from a kind than its stage has kinds.
//! The crate builds on the definitions of `violation`, and on no table and no answer.
#![tactic(auto)]

mod exchange;
mod few;
mod so_far;
mod steps;
mod types;
mod ways;

pub use exchange::prefixes_of_one_kind_go_on_alike;
pub use few::stages_have_few_kinds;
pub use so_far::prefixes_count_alone;
pub use steps::optimal_candidates_go_by_tight_steps;
pub use types::repeated_types_change_no_count;
pub use ways::{
    columns_add_one_at_most, first_candidates_are_short, remaining_counts_are_small,
    shortest_ways_pass_no_kind_twice,
};
