ghost use Rattle.std.specs.Prelude.{◌≡◌, ◌≤◌, length, map, option_map, MatchResult, Some};
ghost use Rattle.std.specs.List.{position_or_len};
ghost use Rattle.grammar_reader.specs.Statements.{each_some, word_of, tier_kind_of, is_header, is_sign, joined_by, sides, sides_of, tier_line, letter_line, constraint_line, statement_of};
ghost use Rattle.grammar_reader.specs.Lexemes.{lexeme_seen};
ghost use Rattle.grammar_reader.specs.Events.{FailsForm};
ghost use Rattle.grammar_reader.specs.Said.{SaysLine};

use crate::event::{NamedEvent, events};
use crate::grammar_err::GrammarCause;
use crate::lexeme::{Lexeme, LineErr};
use std::alloc::Global;
use tier_core::{Family, TierKind};

/// What a line says, on its own.
#[derive(Drop)]
pub(crate) enum Statement<'a> {
    /// `tier NAME KIND`
    Tier(&'a [u8], TierKind),
    /// `letter X = NAME NAME ..`
    Letter(&'a [u8], Vec<&'a [u8]>),
    /// `constraint NAME EVENTS -> EVENTS` or `constraint NAME EVENTS # EVENTS`
    Constraint(&'a [u8], Family, Vec<NamedEvent<'a>>, Vec<NamedEvent<'a>>),
}

/// Whether these are `otp 1`.
pub(crate) fn is_header(lexemes: &[Lexeme<'_>]) -> bool
    ensures { result ≡ is_header (map lexeme_seen lexemes.now) }
{
    match lexemes {
        [Lexeme::Word(a), Lexeme::Word(b)] => *a == b"otp".as_slice() && *b == b"1".as_slice(),
        _ => false,
    }
}

fn tier_kind_of(word: &[u8]) -> Option<TierKind>
    ensures { result ≡ tier_kind_of word.now }
{
    if word == b"input".as_slice() {
        Some(TierKind::Input)
    } else if word == b"overt".as_slice() {
        Some(TierKind::Overt)
    } else if word == b"hidden".as_slice() {
        Some(TierKind::Hidden)
    } else {
        None
    }
}

fn tier_line<'a>(lexemes: &[Lexeme<'a>]) -> Result<Statement<'a>, LineErr>
    ensures { SaysLine result (tier_line (map lexeme_seen lexemes.entry.now)) }
{
    match lexemes {
        [Lexeme::Word(name), Lexeme::Word(kind)] => match tier_kind_of(kind) {
            Some(kind) => Ok(Statement::Tier(name, kind)),
            None => Err(LineErr::Cause(GrammarCause::BadLine)),
        },
        _ => Err(LineErr::Cause(GrammarCause::BadLine)),
    }
}

fn word_of(lexeme: Lexeme<'_>) -> Option<&[u8]>
    ensures { option_map (λ w. w.now) result ≡ word_of (lexeme_seen lexeme.entry) }
{
    match lexeme {
        Lexeme::Word(word) => Some(word),
        _ => None,
    }
}

/// The words of lexemes, if all of them are words.
fn words<'a>(alloc: Global, lexemes: &[Lexeme<'a>]) -> Result<Vec<&'a [u8]>, LineErr>
    ensures { MatchResult result
        (λ v. each_some word_of (map lexeme_seen lexemes.entry.now)
        ≡ Some (map (λ w. w.now) v.items))
        (λ e. FailsForm e (each_some word_of (map lexeme_seen lexemes.entry.now))) }
{
    let mut found = Vec::new(alloc);
    for lexeme in lexemes {
        match word_of(*lexeme) {
            Some(word) => found.push(word)?,
            None => return Err(LineErr::Cause(GrammarCause::BadLine)),
        }
    }
    Ok(found)
}

fn letter_line<'a>(alloc: Global, lexemes: &[Lexeme<'a>]) -> Result<Statement<'a>, LineErr>
    ensures { SaysLine result (letter_line (map lexeme_seen lexemes.entry.now)) }
{
    match lexemes {
        [Lexeme::Word(byte), Lexeme::Equals, _, ..] => {
            let names = words(alloc, &lexemes[2..])?;
            Ok(Statement::Letter(byte, names))
        }
        _ => Err(LineErr::Cause(GrammarCause::BadLine)),
    }
}

/// The number of lexemes before the first `->` or `#`.
fn before_sign(lexemes: &[Lexeme<'_>]) -> usize
    ensures place { result ≡ position_or_len is_sign (map lexeme_seen lexemes.now) }
    ensures within { result ≤ length lexemes.now }
{
    lexemes
        .iter()
        .position(|lexeme| matches!(lexeme, Lexeme::Implies | Lexeme::Clash))
        .unwrap_or(lexemes.len())
}

/// What joins the events on the right side.
pub(crate) fn joined_by(family: Family) -> &'static [u8]
    ensures { result.now ≡ joined_by family }
{
    match family {
        Family::Implication => b"or",
        Family::Clash => b"and",
    }
}

fn sides<'a>(
    alloc: Global,
    name: &'a [u8],
    family: Family,
    left: &[Lexeme<'a>],
    right: &[Lexeme<'a>],
) -> Result<Statement<'a>, LineErr>
    ensures { SaysLine result
        (sides name.entry.now family (map lexeme_seen left.entry.now)
        (map lexeme_seen right.entry.now)) }
{
    let left = events(alloc, b"and", left)?;
    let right = events(alloc, joined_by(family), right)?;
    Ok(Statement::Constraint(name, family, left, right))
}

/// The statement of a constraint's line, which is cut at its first sign.
fn sides_of<'a>(
    alloc: Global,
    name: &'a [u8],
    left: &[Lexeme<'a>],
    rest: &[Lexeme<'a>],
) -> Result<Statement<'a>, LineErr>
    ensures { SaysLine result
        (sides_of name.entry.now (map lexeme_seen left.entry.now)
        (map lexeme_seen rest.entry.now)) }
{
    match rest.split_first() {
        Some((Lexeme::Implies, right)) => sides(alloc, name, Family::Implication, left, right),
        Some((Lexeme::Clash, right)) => sides(alloc, name, Family::Clash, left, right),
        _ => Err(LineErr::Cause(GrammarCause::BadLine)),
    }
}

fn constraint_line<'a>(alloc: Global, lexemes: &[Lexeme<'a>]) -> Result<Statement<'a>, LineErr>
    ensures { SaysLine result (constraint_line (map lexeme_seen lexemes.entry.now)) }
{
    match lexemes.split_first() {
        Some((Lexeme::Word(name), rest)) => {
            let (left, rest) = rest.split_at(before_sign(rest));
            sides_of(alloc, name, left, rest)
        }
        _ => Err(LineErr::Cause(GrammarCause::BadLine)),
    }
}

/// What a line says, or BadLine if its lexemes have none of the forms.
pub(crate) fn statement_of<'a>(
    alloc: Global,
    lexemes: &[Lexeme<'a>],
) -> Result<Statement<'a>, LineErr>
    ensures { SaysLine result (statement_of (map lexeme_seen lexemes.entry.now)) }
{
    match lexemes.split_first() {
        Some((Lexeme::Word(key), rest)) => {
            if *key == b"tier".as_slice() {
                tier_line(rest)
            } else if *key == b"letter".as_slice() {
                letter_line(alloc, rest)
            } else if *key == b"constraint".as_slice() {
                constraint_line(alloc, rest)
            } else {
                Err(LineErr::Cause(GrammarCause::BadLine))
            }
        }
        _ => Err(LineErr::Cause(GrammarCause::BadLine)),
    }
}
