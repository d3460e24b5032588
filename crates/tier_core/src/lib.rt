//! Symbols, columns, timelines, tiers, constraints, classes of columns and kinds of prefixes:
//! the values that every other crate of the workspace uses, with the definitions of well-formed
//! and reduced timelines, of constituents, of events and of the orders.
//!
//! Contracts see a column as a list of symbols, a timeline as a list of columns, one side of a
//! constraint as a list of events, and a class by the sets of its tiers. The crate depends on no
//! other crate of the workspace. The layers above use the types, their functions, and the
//! definitions in `specs/`.
//!
//! Source: timelines, constituents and the two families of constraints follow Eisner, Efficient
//! Generation in Primitive Optimality Theory (ACL 1997).
#![tactic(auto)]

mod class;
mod class_word;
mod column;
mod constraint;
mod event;
mod form;
mod kind;
mod kind_order;
mod mask;
mod order;
mod projection;
mod shape;
mod sym;
#[cfg(test)]
mod tests;
mod tier;
mod timeline;

pub use class::{Class, single_set};
pub use column::Column;
pub use constraint::{Constraint, Family};
pub use event::{Event, EventList, Part, has_edge_type};
pub use form::{has_edge, reduced, well_formed};
pub use kind::Kind;
pub use kind_order::kind_cmp;
pub use mask::{has_bit, with_bit};
pub use order::{column_cmp, timeline_cmp};
pub use projection::{project, squeeze};
pub use shape::Shape;
pub use sym::Sym;
pub use tier::{TierKind, TierTable};
/// Memory ran out.
pub use std::alloc::AllocError as NoMemory;
pub use timeline::Timeline;
