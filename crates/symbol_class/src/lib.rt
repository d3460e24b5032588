//! Sets of columns: the intersection of classes, the columns of one class that another lacks, how
//! tests divide a class, and how lists of classes are shortened by joining them.
//!
//! A class has a set of symbols for each tier, and holds the columns whose symbols are in these
//! sets. No call here looks at single columns. Below are columns and classes; above, the moves of
//! kinds are given for classes of columns, and the automata of answers have them on their arcs.
#![tactic(auto)]

mod common;
mod difference;
mod emptiness;
mod joining;
mod least;
mod order;
mod parting;
mod parts;
mod remainder;
mod sets;
mod sharing;
mod sides;
#[cfg(test)]
mod tests;

pub use common::meet;
pub use difference::Difference;
pub use emptiness::is_empty;
pub use joining::join;
pub use least::least_column;
pub use order::class_cmp;
pub use parting::split;
pub use parts::part;
pub use remainder::{minus, push_minus};
pub use sets::restrict;
pub use sharing::{Shares, push_inside, push_outside, share_of};
pub use sides::Split;
