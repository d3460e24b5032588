//! The first timeline that a table accepts: the one with the fewest columns, and of those the
//! least in column order.
//!
//! A breadth-first search backward from the accepting states, over the reversed moves, finds how
//! few columns are left at each state. From the start on, the least column that leads one step
//! nearer to the end is taken. The classes of one state's arcs are disjoint, so that column leads
//! to one state. The staged generator uses this crate to show the first optimal timeline, and
//! comprehension to show the first one of a surface.
#![tactic(auto)]

mod choice;
mod follow;
mod lengths;

pub use follow::first;
