//! Worked examples of the definitions. The functions do nothing: each says by its contract what a
//! definition gives on small cases, and the check computes it.

pub mod counts;
pub mod kinds;
pub mod optima;
pub mod timelines;
