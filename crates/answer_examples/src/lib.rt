//! Worked answers to small problems, beside the definitions. The functions do nothing: the contract
//! of each says that an answer is right, certified and sound, or that an altered one is refused.
//! What an answer says is given by plain lists (`IsSeenAs`), and what holds of it is computed.
#![tactic(auto)]

mod altered;
mod faithful;
mod one_dep;
mod one_max_dep;
mod remaining;
mod unranked;

pub use altered::{
    altered_automata_are_refused, altered_heads_are_refused, altered_stages_are_refused,
};
pub use faithful::{answers_under_max_and_dep, answers_under_max_dep_and_one};
pub use one_dep::answers_under_one_dependence;
pub use one_max_dep::answers_under_one_max_and_dep;
pub use remaining::one_violation_remains;
pub use unranked::{altered_answers_are_refused, unranked_answers};
