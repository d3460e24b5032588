//! The grammar language: texts of tiers, letters and ranked constraints, and the grammars that they
//! define.
//!
//! A text is split into tokens, read as lexemes line by line and as the statement of each line, and
//! refused at the first line that has a cause. The layers above get grammars from [`read_grammar`],
//! write the canonical text with [`put_grammar`], and get from [`shape`] what the text of an answer
//! needs. By its type a [`Grammar`] is within the limits, has proper names, and names only tiers
//! that exist.
//!
//! `specs/` defines the pieces of a text (`Pieces`), what a line says (`Statements`), the value of
//! a grammar (`Values`), and the causes in their order (`Reading`).
#![tactic(auto)]

mod add;
mod causes;
mod event;
mod front;
mod grammar;
mod grammar_err;
mod lexeme;
mod lines;
mod made;
mod names;
mod put;
mod read;
mod reading;
mod scan;
mod shape_of;
mod slices;
mod statement;
#[cfg(test)]
mod tests;
mod token_iter;
mod words;

pub use grammar::Grammar;
pub use grammar_err::{GrammarCause, GrammarErr};
pub use put::{push_grammar, put_grammar};
pub use read::read_grammar;
pub use reading::canonical_is_read_again;
pub use scan::tokens;
pub use shape_of::shape;
pub use slices::tokens_are_slices;
pub use token_iter::{Token, Tokens};
