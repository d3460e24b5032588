//! The command line: what its words ask for, and how a command ended.
//!
//! ```text
//! words ─► command_of ─► Command, or none
//! Status ─► put_status ─► its line;  Status::number ─► the exit status
//! ```
//!
//! The layer above reads its words by [`command_of`], does what the [`Command`] asks for, writes the
//! line of the [`Status`] that it ends with by [`put_status`], and ends with its number. A line names
//! the word, and the line or entry of a file, the column or the tier that is at fault. The
//! definitions in `specs/Commands` say which words are those of which command, and the lemma
//! `one_command` says that no words are those of two; `specs/Lines` has the numbers and the lines.
#![tactic(auto)]

mod budget;
mod cause;
mod command;
mod number;
mod pushed;
mod put;
mod read;
mod status;
#[cfg(test)]
mod tests;

pub use command::Command;
pub use put::put_status;
pub use read::command_of;
pub use status::Status;
