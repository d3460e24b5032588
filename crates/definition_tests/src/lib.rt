//! Tests against slow programs that go by the definitions. No other crate depends on this one.
//!
//! What constraints count: [`counted_by_choices`] lists the events of each type, makes the choices one
//! after the other, and counts those that the definition counts. The tests compare it with
//! `violation::violations` on small timelines, and `violations` with counts that were worked out by
//! hand.
//!
//! Tables of arcs: a small graph is written as a list of arrows over one tier. [`small_table`] makes
//! a table of it, and finds out by trying whether it is one. The tests then read every short word in
//! it, one by one, and compare what they find with what `to_final`, `tight` and `first` return.
#![tactic(auto)]

mod choices;
mod countable;
mod events;
mod fit;
mod graph;
mod span;
#[cfg(test)]
mod tests;

pub use choices::counted_by_choices;
pub use countable::is_countable;
pub use graph::{Arrow, small_table};
