ghost use Rattle.std.specs.Prelude.{◌≡◌, option_map, map, MatchResult, Some};
ghost use Rattle.grammar_reader.specs.Statements.{event_on, event_of, events_of, is_the_word};
ghost use Rattle.grammar_reader.specs.Lexemes.{lexeme_seen};
ghost use Rattle.grammar_reader.specs.Events.{seen_event, FailsForm};

use crate::grammar_err::GrammarCause;
use crate::lexeme::{Lexeme, LineErr};
use crate::names::is_connective;
use std::alloc::Global;
use tier_core::Part;

/// An event, with the name of its tier.
#[derive(Clone, Copy)]
pub(crate) struct NamedEvent<'a> {
    pub part: Part,
    pub tier: &'a [u8],
}

fn event_on(part: Part, word: &[u8]) -> Option<NamedEvent<'_>>
    ensures { option_map seen_event result ≡ event_on part word.entry.now }
{
    if is_connective(word) {
        None
    } else {
        Some(NamedEvent { part, tier: word })
    }
}

/// The event at the front of lexemes: `[NAME`, `]NAME` or `NAME`.
fn event_of<'a>(piece: &[Lexeme<'a>]) -> Option<NamedEvent<'a>>
    ensures { option_map seen_event result ≡ event_of (map lexeme_seen piece.entry.now) }
{
    match piece {
        [Lexeme::Opens, Lexeme::Word(word)] => event_on(Part::Start, word),
        [Lexeme::Closes, Lexeme::Word(word)] => event_on(Part::End, word),
        [Lexeme::Word(word)] => event_on(Part::Interior, word),
        _ => None,
    }
}

fn is_the_word(lexeme: &Lexeme<'_>, text: &[u8]) -> bool
    ensures { result ≡ is_the_word text.now (lexeme_seen lexeme.now) }
{
    match lexeme {
        Lexeme::Word(word) => *word == text,
        _ => false,
    }
}

/// One or more events, with a connective between any two neighbours.
pub(crate) fn events<'a>(
    alloc: Global,
    connective: &[u8],
    lexemes: &[Lexeme<'a>],
) -> Result<Vec<NamedEvent<'a>>, LineErr>
    ensures { MatchResult result
        (λ v. events_of connective.now (map lexeme_seen lexemes.entry.now)
        ≡ Some (map seen_event v.items))
        (λ e. FailsForm e (events_of connective.now (map lexeme_seen lexemes.entry.now))) }
{
    let mut found = Vec::new(alloc);
    for piece in lexemes.split(|l| is_the_word(l, connective)) {
        match event_of(piece) {
            Some(event) => found.push(event)?,
            None => return Err(LineErr::Cause(GrammarCause::BadLine)),
        }
    }
    Ok(found)
}
