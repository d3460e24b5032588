use answer_text::Answer;
use grammar_reader::Grammar;
use tier_core::Shape;

/// What is looked at: an answer for a grammar, which has this shape.
#[derive(Drop)]
pub(crate) struct Subject<'a> {
    pub grammar: &'a Grammar,
    pub answer: &'a Answer,
    pub shape: &'a Shape,
}
