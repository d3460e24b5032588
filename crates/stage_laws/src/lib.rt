//! The theory of one ranked stage of the generator, and of a single pass under all constraints, as
//! laws over definitions. The functions do nothing: each says by its contract what holds of every
//! table of a stage, and nothing is built.
//!
//! A table of stage r has a state for each kind of prefix under the first r constraints, weighs its
//! moves by constraint r, and accepts the candidates that the constraints before have left
//! (`kind_tables`). So its least weights are what remains to be counted, and its words of least
//! weight are the candidates that constraint r leaves. The crate builds on tables of kinds, and on
//! least weights and pruning (`distances`, `prune_best`). The staged generator relies on it. The
//! table of a single pass has a state for each kind under all constraints, accepts all candidates,
//! and weighs its moves by vectors: its least weights are the least vectors that remain, and its
//! words of least weight are the optimal candidates.
#![tactic(auto)]

mod found;
mod optima;
mod remaining;
mod vectors;

pub use found::{found_tables_are_the_next, pruned_tables_keep_their_names};
pub use optima::{
    least_weight_is_the_least_number, numbers_make_the_least_vector,
    words_of_least_weight_are_optimal,
};
pub use remaining::least_weights_remain;
pub use vectors::{least_vectors_remain, words_of_least_vectors_are_optimal};
