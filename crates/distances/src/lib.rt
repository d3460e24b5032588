//! The least weights of the paths from each state of a table to an accepting one.
//!
//! The weights are found backward, over the reversed moves, taking the least one that waits in a
//! heap first. A round over all arcs then shows that nothing is left to change, so that every
//! lawful weight will do, even with weights of zero and cycles. `tight` keeps the arcs on which
//! these weights are tight.
#![tactic(auto)]

mod look;
mod rounds;
mod settle;
mod waiting;
mod weights;

pub use weights::to_final;
