ghost use Rattle.std.specs.Prelude.{◌≡◌, ◌+◌, ◌<◌, ◌^◌, ◌∷◌, [], length, option_map, MatchResult, map, Some};
ghost use Rattle.timeline_text.specs.Bytes.{lines_of};
ghost use Rattle.grammar_reader.specs.Pieces.{lexeme_of};
ghost use Rattle.grammar_reader.specs.Lexemes.{lexeme_seen, lexemes_of, FailsLine};

use crate::front::is_word;
use crate::grammar_err::GrammarCause;
use crate::token_iter::{Step, Tokens};
use std::alloc::{AllocError, AllocFailed, Global};

/// What a token is: a sign or a word.
#[derive(Clone, Copy)]
pub(crate) enum Lexeme<'a> {
    Opens,
    Closes,
    Equals,
    Clash,
    Implies,
    Word(&'a [u8]),
}

/// Why a line has no lexemes.
#[derive(Clone, Copy)]
pub(crate) enum LineErr {
    Cause(GrammarCause),
    NoMemory,
}

impl From<AllocError> for LineErr {
    ghost use Rattle.grammar_reader.specs.declared.lexeme.LineErr.TheVariants.{NoMemory};

    ghost from_gives = { λ _ e. e ≡ NoMemory };

    fn from(_e: AllocError) -> LineErr {
        LineErr::NoMemory
    }
}

impl<T: Drop> From<AllocFailed<T>> for LineErr {
    ghost use Rattle.grammar_reader.specs.declared.lexeme.LineErr.TheVariants.{NoMemory};

    ghost from_gives = { λ _ e. e ≡ NoMemory };

    fn from(_e: AllocFailed<T>) -> LineErr {
        LineErr::NoMemory
    }
}

/// What the text of a token is, and None if the text is not a token.
fn kind_of_token(text: &[u8]) -> Option<Lexeme<'_>>
    ensures { option_map lexeme_seen result ≡ lexeme_of text.entry.now }
{
    if text == b"[".as_slice() {
        Some(Lexeme::Opens)
    } else if text == b"]".as_slice() {
        Some(Lexeme::Closes)
    } else if text == b"=".as_slice() {
        Some(Lexeme::Equals)
    } else if text == b"#".as_slice() {
        Some(Lexeme::Clash)
    } else if text == b"->".as_slice() {
        Some(Lexeme::Implies)
    } else if is_word(text) {
        Some(Lexeme::Word(text))
    } else {
        None
    }
}

/// The lexemes of a line.
pub(crate) fn lexemes(alloc: Global, line: &[u8], number: u32) -> Result<Vec<Lexeme<'_>>, LineErr>
    requires whole { lines_of line.now ≡ line.now ∷ [] }
    requires number { number + length line.now < 2 ^ 32 }
    ensures { MatchResult result (λ v. lexemes_of line.entry.now ≡ Some (map lexeme_seen v.items))
        (FailsLine line.entry.now) }
{
    let mut found = Vec::new(alloc);
    let mut tokens = Tokens::from_line(line, number);
    'tokens: loop {
        match tokens.step() {
            Step::End => return Ok(found),
            Step::Bad => return Err(LineErr::Cause(GrammarCause::BadByte)),
            Step::Token(token) => match kind_of_token(token.text) {
                Some(lexeme) => found.push(lexeme)?,
                None => return Err(LineErr::Cause(GrammarCause::BadByte)),
            },
        }
    }
}
