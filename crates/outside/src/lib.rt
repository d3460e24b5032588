//! Everything that enters the program from outside or leaves it. This crate depends on no other
//! crate of the workspace, and every crate that loads or writes depends on it.
//!
//! ```text
//! words, files ─► Shelf ─► readers ─► grammar, timeline ─► .. ─► answer ─► writers ─► OutBuffer ─► Sink
//! ```
//!
//! - The layers above load whole files by name from a [`Shelf`], and write texts to a [`Sink`]. A
//!   writer `put_x` gives a sink a whole text. It calls writers `push_x`, which append their pieces
//!   to one [`OutBuffer`], so that the sink sees few writes; [`put_all`] writes one piece directly.
//! - What every writer promises is stated once: `Puts` and `Pushes` in `specs/Writers.antt`.
//! - The shelf counts faults for each name, and the sink counts its own. An answer `Failed` is
//!   backed by a count that has risen, and no count ever falls.
//! - [`MemShelf`], [`SafeShelf`], [`MemSink`] and [`SafeSink`] keep their bytes in memory, and
//!   contracts see them. [`FileShelf`] and [`StreamSink`] are the edge to the system; a program
//!   makes them from its runtime. They meet the same contracts, but do not show their contents.
#![tactic(auto)]

pub use file_shelf::FileShelf;
pub use mem_shelf::MemShelf;
pub use mem_sink::MemSink;
pub use number::{push_decimal, push_number};
pub use out_buffer::OutBuffer;
pub use put::put_all;
pub use safe_shelf::SafeShelf;
pub use safe_sink::SafeSink;
pub use shelf::{LoadErr, Shelf};
pub use sink::{Sink, WriteErr};
pub use stream_sink::StreamSink;

mod counts;
mod file_shelf;
mod files;
mod mem_shelf;
mod mem_sink;
mod number;
mod out_buffer;
mod put;
mod safe_shelf;
mod safe_sink;
mod shelf;
mod sink;
mod stream_sink;
#[cfg(test)]
mod tests;
