//! The line of a verdict, as `Yes` or `No potential 1 1 2 1`.
//!
//! The checker below says what is at fault in an answer. The layer above writes it with
//! [`put_verdict`]. The definitions of `specs/VerdictText` are the lines.
#![tactic(auto)]

mod fault;
mod numbers;
mod put;
mod stretches;
mod symbols;
#[cfg(test)]
mod tests;

pub use put::put_verdict;
