//! The commands of the program, over any shelf and any sink.
//!
//! ```text
//! words ─► run: load the grammar ─► read it ─► read the form, timeline or surface
//!          ─► load and read the second file ─► generate, count or check ─► write ─► Status
//! ```
//!
//! This is the topmost library of the workspace. A program gives its words, files, standard output
//! and standard error to [`run_to_end`], and ends with the number that it gives. Over other shelves
//! and sinks [`run`] answers the [`Status`], and [`put_status`] writes its line. Each command makes
//! its whole result before it writes. [`run_in_memory`] is [`run`] over stores that never fail.
//!
//! The definitions in `specs/` are the files that commands name (`Files`), what files, timelines and
//! surfaces are read as (`Grammars`, `Scored`, `Lexicons`), what an answer is read as and its verdict
//! (`Answers`), what a sample is (`Samples`), what each command writes (`Results`), what it may find
//! before it writes (`Findings`), what each status means (`Outcomes`), and how a
//! program ends (`Endings`). The laws [`problems_are_made_of_values`], [`one_thing_is_found`],
//! [`one_status_is_settled`] and [`budgets_are_told`] say how those who have only bytes come to what
//! the contract of [`run`] asks for (`Asked`).
#![tactic(auto)]

mod answer;
mod checking;
mod commands;
mod ending;
mod grammar;
mod hearing;
mod in_memory;
mod laws;
mod results;
mod sample_check;
mod sample_form;
mod sample_pairs;
mod sample_text;
mod sampling;
mod scored;
mod second;
mod single_pass;
mod tableaux;
#[cfg(test)]
mod tests;

pub use command_line::{Status, put_status};
pub use commands::run;
pub use ending::run_to_end;
pub use in_memory::run_in_memory;
pub use laws::{
    budgets_are_told, one_status_is_settled, one_thing_is_found, problems_are_made_of_values,
};
