//! Reading answers: the text of an answer, read back as its value or refused by the first line that has
//! a cause, with that line's number and its first cause.
//!
//! [`read_answer`] goes through the bytes once, line by line, and copies none of them. The layers above
//! check what it reads, which is `IsReadable`: the condition of a checker.
//!
//! The definitions in `specs/` give the meaning of a single line (`Nodes`, `Classes`, `Timelines`,
//! `Lines`), of the lines of stages and states in sequence (`Stages`, `States`), and of a whole text
//! (`Reading`), as the value of an answer, which stands in `answer_text` (`Values`). Each text has
//! exactly one of a value and a first cause, and what `put_answer` writes for an orderly answer is
//! read as that answer's value: [`each_text_has_one_reading`] and [`written_is_read_again`].
#![tactic(auto)]

mod answer_err;
mod class;
mod counts;
mod cut;
mod head;
mod line_forms;
mod lines;
mod mask;
mod node;
mod number;
mod on_line;
mod order;
mod read;
mod reading;
mod stage_loop;
mod stages;
mod state_loop;
mod states;
#[cfg(test)]
mod tests;
mod timeline_line;

pub use answer_err::{AnswerCause, AnswerErr};
pub use read::read_answer;
pub use reading::{each_text_has_one_reading, written_is_read_again};
