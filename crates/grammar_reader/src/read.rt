ghost use Rattle.std.specs.Prelude.{◌≡◌, ◌+◌, ◌<◌, ◌≤◌, ◌^◌, ◌∷◌, [], length, map, IsTrue, MatchResult, IfOk, Ok};
ghost use Rattle.std.specs.List.{list_any, list_all};
ghost use Rattle.std.specs.String.{string_bytes};
ghost use Rattle.tier_core.specs.Tiers.{is_input, is_overt};
ghost use Rattle.timeline_text.specs.Bytes.{lines_of};
ghost use Rattle.grammar_reader.specs.Names.{is_name};
ghost use Rattle.grammar_reader.specs.Values.{IsGrammar};
ghost use Rattle.grammar_reader.specs.Reading.{after_statement, after_line, finish, grammar_of};
ghost use Rattle.grammar_reader.specs.Statements.{statement_of};
ghost use Rattle.grammar_reader.specs.Lexemes.{lexeme_seen};
ghost use Rattle.grammar_reader.specs.Seen.{tiers_seen};
ghost use Rattle.grammar_reader.specs.Made.{made_value, value_so_far, FailsAt, FailsText};
ghost use Rattle.grammar_reader.specs.Grammars.{value_of};

use crate::add::add;
use crate::causes::check;
use crate::grammar::Grammar;
use crate::grammar_err::{GrammarCause, GrammarErr};
use crate::lexeme::{Lexeme, LineErr, lexemes};
use crate::made::{Made, Tiers};
use crate::statement::{is_header, statement_of};
use std::alloc::Global;
use tier_core::{TierKind, TierTable};

/// Reads what the lexemes of a line say, after the header.
fn read_statement<'a>(
    alloc: Global,
    made: &mut Made<'a>,
    lexemes: &[Lexeme<'a>],
) -> Result<(), LineErr>
    ensures { MatchResult result
        (λ _. after_statement (made_value made.old)
        (statement_of (map lexeme_seen lexemes.entry.now)) ≡ Ok (made_value made.new))
        (λ e. FailsAt e (after_statement (made_value made.old)
        (statement_of (map lexeme_seen lexemes.entry.now)))) }
{
    let statement = statement_of(alloc, lexemes)?;
    check(alloc, made, &statement)?;
    add(alloc, made, &statement)
}

/// Reads one line, after the lines before it.
fn read_line<'a>(
    alloc: Global,
    state: &mut Option<Made<'a>>,
    line: &'a [u8],
    number: u32,
) -> Result<(), LineErr>
    requires whole { lines_of line.now ≡ line.now ∷ [] }
    requires number { number + length line.now < 2 ^ 32 }
    ensures { MatchResult result
        (λ _. after_line (value_so_far state.old) line.entry.now ≡ Ok (value_so_far state.new))
        (λ e. FailsAt e (after_line (value_so_far state.old) line.entry.now)) }
{
    let found = lexemes(alloc, line, number)?;
    if found.is_empty() {
        return Ok(());
    }
    match state {
        None => {
            if !is_header(&found) {
                return Err(LineErr::Cause(GrammarCause::BadHeader));
            }
            *state = Some(Made::new(alloc));
            Ok(())
        }
        Some(made) => read_statement(alloc, made, &found),
    }
}

/// Reads the lines of a text, up to the first that has a cause. None: no header has come yet.
fn read_lines(alloc: Global, bytes: &[u8]) -> Result<Option<Made<'_>>, GrammarErr>
    requires { length bytes.now ≤ 65536 }
    ensures { MatchResult result
        (λ state. grammar_of bytes.entry.now ≡ finish (value_so_far state))
        (λ e. FailsText e (grammar_of bytes.entry.now)) }
{
    let mut state = None;
    let mut number: u32 = 0;
    for line in bytes.split(|b| *b == b'\n') {
        number += 1;
        match read_line(alloc, &mut state, line, number) {
            Ok(()) => {}
            Err(LineErr::Cause(cause)) => {
                return Err(GrammarErr::At {
                    line: number,
                    cause,
                });
            }
            Err(LineErr::NoMemory) => return Err(GrammarErr::NoMemory),
        }
    }
    Ok(state)
}

fn has_input(tiers: &Tiers<'_>) -> bool
    ensures { result ≡ list_any (λ t. is_input t.kind) (tiers_seen tiers.now.entries) }
{
    tiers.values().any(|kind| kind.is_input())
}

fn has_overt(tiers: &Tiers<'_>) -> bool
    ensures { result ≡ list_any (λ t. is_overt t.kind) (tiers_seen tiers.now.entries) }
{
    tiers.values().any(|kind| kind.is_overt())
}

fn names_of(alloc: Global, tiers: &Tiers<'_>) -> Result<Vec<String>, GrammarErr>
    requires { IsTrue (list_all (λ t. is_name t.name) (tiers_seen tiers.now.entries)) }
    ensures { MatchResult result
        (λ v. map string_bytes v.items ≡ map (λ t. t.name) (tiers_seen tiers.now.entries))
        (λ e. e ≡ GrammarErr.NoMemory) }
{
    let mut names = Vec::new(alloc);
    for name in tiers.keys() {
        // A name is ASCII, so nothing of it is lost.
        names.push(String::from_utf8_lossy(alloc, name)?)?;
    }
    Ok(names)
}

fn kinds_of(alloc: Global, tiers: &Tiers<'_>) -> Result<Vec<TierKind>, GrammarErr>
    ensures { MatchResult result (λ v. v.items ≡ map (λ t. t.kind) (tiers_seen tiers.now.entries))
        (λ e. e ≡ GrammarErr.NoMemory) }
{
    let mut kinds = Vec::new(alloc);
    for kind in tiers.values() {
        kinds.push(*kind)?;
    }
    Ok(kinds)
}

/// The grammar that all lines together have made.
fn finish(alloc: Global, made: Made<'_>) -> Result<Grammar, GrammarErr>
    requires { IsGrammar (made_value made) }
    ensures { MatchResult result (λ g. value_of g ≡ made_value made.entry)
        (λ e. e ≡ GrammarErr.NoMemory) }
{
    let names = names_of(alloc, &made.tiers)?;
    let kinds = kinds_of(alloc, &made.tiers)?;
    Ok(Grammar {
        tiers: TierTable { names, kinds },
        letters: made.letters,
        constraints: made.constraints,
    })
}

/// Reads the text of a grammar, which has at most 65,536 bytes.
///
/// The error is the first cause of the first line that has one, with that line's number, counted
/// from 1. If no line has a cause, `NoInput` and `NoOvert` are tried, with line 0. A text without
/// any tokens gives `BadHeader` with line 1. `NoMemory` may come in place of any other answer.
pub fn read_grammar(alloc: Global, bytes: &[u8]) -> Result<Grammar, GrammarErr>
    requires { length bytes.now ≤ 65536 }
    ensures { MatchResult result
        (λ grammar. grammar_of bytes.entry.now ≡ Ok (value_of grammar))
        (λ e. FailsText e (grammar_of bytes.entry.now)) }
{
    let Some(made) = read_lines(alloc, bytes)? else {
        return Err(GrammarErr::At {
            line: 1,
            cause: GrammarCause::BadHeader,
        });
    };
    if !has_input(&made.tiers) {
        return Err(GrammarErr::At {
            line: 0,
            cause: GrammarCause::NoInput,
        });
    }
    if !has_overt(&made.tiers) {
        return Err(GrammarErr::At {
            line: 0,
            cause: GrammarCause::NoOvert,
        });
    }
    finish(alloc, made)
}
