//! Budgets that are always enough, as a law over definitions. The function does nothing: its contract
//! says which budgets no stage of a problem can exceed. The crate builds on the kinds of
//! stages (`kind_laws`) and on the generator's words about budgets (`ranked_gen`).
#![tactic(auto)]

mod enough;

pub use enough::{first_stage_over_a_budget, stages_are_within_enough};
