//! Comprehension: which entries of a lexicon have an optimal candidate with a surface.
//!
//! The surface of a timeline is its projection to the overt tiers, squeezed. [`has_surface`] finds
//! the first optimal candidate of a sound answer that has one. [`comprehend`] asks it of the answer
//! of each entry, one after another. [`read_surface`] reads a surface, and [`put_hits`] writes what
//! was found.
//!
//! The search goes over cells, the pairs of a state of the automaton and a place in the surface. An
//! arc stays at a place if a column of its class has no edge on an overt tier, and goes on to the
//! next place if a column of its class has the surface's next column on the overt tiers
//! (`tests_of`). The least number of columns from each cell to an end is found by a backward
//! breadth-first search (`search`), in 4 bytes a cell. Then, step by step, the least column that
//! keeps to these numbers is taken (`follow`).
//!
//! The definitions in `specs/` say what a surface is (`Surfaces`), which entries are heard
//! (`Hears`), and what the text of hits is (`HitText`).
#![tactic(auto)]

mod cell;
mod choice;
mod choose;
mod comp_err;
mod entering;
mod follow;
mod hearing;
mod hit;
mod level;
mod look;
mod meets;
mod numbering;
mod put;
mod search;
mod surface;
mod surface_word;
#[cfg(test)]
mod tests;
mod tests_of;
mod turning;

pub use comp_err::CompErr;
pub use hearing::comprehend;
pub use hit::Hit;
pub use put::put_hits;
pub use surface::has_surface;
pub use surface_word::read_surface;
