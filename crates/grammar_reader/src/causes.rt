ghost use Rattle.std.specs.Prelude.{◌≡◌, [], None, map, length, MatchResult};
ghost use Rattle.std.specs.List.{list_any};
ghost use Rattle.std.specs.Str.{bytes_eq};
ghost use Rattle.grammar_reader.specs.Names.{has_twice};
ghost use Rattle.grammar_reader.specs.Values.{is_named, inputs_of, free_of, letter_name};
ghost use Rattle.grammar_reader.specs.Reading.{has_bad_name, is_twice_named, is_unknown, has_unknown_tier, is_input_named, has_no_input, is_tier_too_many, is_constraint_too_many, has_too_many_events, cause_of};
ghost use Rattle.grammar_reader.specs.Seen.{tiers_seen, constraint_seen};
ghost use Rattle.grammar_reader.specs.Events.{seen_event};
ghost use Rattle.grammar_reader.specs.Said.{statement_seen};
ghost use Rattle.grammar_reader.specs.Made.{made_value, FailsCause};

use crate::event::NamedEvent;
use crate::grammar_err::GrammarCause;
use crate::lexeme::LineErr;
use crate::made::{Made, Tiers};
use crate::names::{is_letter_byte, is_name};
use crate::statement::Statement;
use indexmap::IndexSet;
use std::alloc::Global;

/// Whether a word in place of a name is not a name.
fn has_bad_name(statement: &Statement<'_>) -> bool
    ensures { result ≡ has_bad_name (statement_seen statement.now) }
{
    match statement {
        Statement::Tier(name, _) => !is_name(name),
        Statement::Letter(byte, names) => {
            !is_letter_byte(byte) || names.iter().any(|name| !is_name(name))
        }
        Statement::Constraint(name, _, _, _) => !is_name(name),
    }
}

/// Whether a tier with this name is defined.
fn is_known(tiers: &Tiers<'_>, name: &[u8]) -> bool
    ensures { result ≡ list_any (is_named name.now) (tiers_seen tiers.now.entries) }
{
    tiers.contains_key(name)
}

/// Whether some name is twice in a list, whose names go into a set.
fn repeats<'a>(seen: &mut IndexSet<&'a [u8]>, names: &[&'a [u8]]) -> Result<bool, LineErr>
    requires { seen.old.keys ≡ [] }
    ensures { MatchResult result (λ twice. twice ≡ has_twice (map (λ n. n.now) names.now))
        (λ e. e ≡ LineErr.NoMemory) }
{
    for name in names {
        if seen.contains(*name) {
            return Ok(true);
        }
        seen.insert(*name)?;
    }
    Ok(false)
}

/// Whether some name is twice in a list.
fn has_twice(alloc: Global, names: &[&[u8]]) -> Result<bool, LineErr>
    ensures { MatchResult result (λ twice. twice ≡ has_twice (map (λ n. n.now) names.now))
        (λ e. e ≡ LineErr.NoMemory) }
{
    let mut seen = IndexSet::new(alloc);
    repeats(&mut seen, names)
}

/// Whether a letter with this byte is defined.
fn has_letter(made: &Made<'_>, byte: &[u8]) -> bool
    ensures { result ≡ list_any (λ l. bytes_eq byte.now (letter_name l)) made.now.letters.items }
{
    made.letters
        .iter()
        .any(|letter| byte == [letter.byte].as_slice())
}

/// Whether a constraint with this name is defined.
fn has_constraint(made: &Made<'_>, name: &[u8]) -> bool
    ensures { result
        ≡ list_any (λ c. bytes_eq name.now c.name)
        (map constraint_seen made.now.constraints.items) }
{
    made.constraints
        .iter()
        .any(|constraint| name == constraint.name.as_bytes())
}

/// Whether the name is already defined, or a letter has a tier twice.
fn is_twice_named(
    alloc: Global,
    made: &Made<'_>,
    statement: &Statement<'_>,
) -> Result<bool, LineErr>
    ensures { MatchResult result
        (λ twice. twice ≡ is_twice_named (made_value made.now) (statement_seen statement.now))
        (λ e. e ≡ LineErr.NoMemory) }
{
    match statement {
        Statement::Tier(name, _) => Ok(is_known(&made.tiers, name)),
        Statement::Letter(byte, names) => {
            if has_letter(made, byte) {
                return Ok(true);
            }
            has_twice(alloc, names)
        }
        Statement::Constraint(name, _, _, _) => Ok(has_constraint(made, name)),
    }
}

/// Whether an event is on a tier that no earlier line has defined.
fn has_unknown_event(tiers: &Tiers<'_>, events: &[NamedEvent<'_>]) -> bool
    ensures { result
        ≡ list_any (λ e. is_unknown (tiers_seen tiers.now.entries) e.tier)
        (map seen_event events.now) }
{
    events.iter().any(|event| !is_known(tiers, event.tier))
}

/// Whether a tier is named that no earlier line has defined.
fn has_unknown_tier(made: &Made<'_>, statement: &Statement<'_>) -> bool
    ensures { result ≡ has_unknown_tier (made_value made.now) (statement_seen statement.now) }
{
    let tiers = &made.tiers;
    match statement {
        Statement::Tier(_, _) => false,
        Statement::Letter(_, names) => names.iter().any(|name| !is_known(tiers, name)),
        Statement::Constraint(_, _, left, right) => {
            has_unknown_event(tiers, left) || has_unknown_event(tiers, right)
        }
    }
}

/// Whether an input tier with this name is defined.
fn is_input_named(tiers: &Tiers<'_>, name: &[u8]) -> bool
    ensures { result ≡ is_input_named (tiers_seen tiers.now.entries) name.now }
{
    match tiers.get(name) {
        Some(kind) => kind.is_input(),
        None => false,
    }
}

/// Whether a letter has a tier that is not an input tier.
fn has_no_input(made: &Made<'_>, statement: &Statement<'_>) -> bool
    ensures { result ≡ has_no_input (made_value made.now) (statement_seen statement.now) }
{
    match statement {
        Statement::Letter(_, names) => names.iter().any(|name| !is_input_named(&made.tiers, name)),
        _ => false,
    }
}

/// The number of input tiers.
fn input_count(tiers: &Tiers<'_>) -> usize
    ensures { result ≡ length (inputs_of (tiers_seen tiers.now.entries)) }
{
    tiers.values().filter(|kind| kind.is_input()).count()
}

/// The number of overt and hidden tiers.
fn free_count(tiers: &Tiers<'_>) -> usize
    ensures { result ≡ length (free_of (tiers_seen tiers.now.entries)) }
{
    tiers.values().filter(|kind| !kind.is_input()).count()
}

/// Whether this is the 13th tier, the 7th input tier or the 9th free tier.
fn is_tier_too_many(made: &Made<'_>, statement: &Statement<'_>) -> bool
    ensures { result ≡ is_tier_too_many (made_value made.now) (statement_seen statement.now) }
{
    match statement {
        Statement::Tier(_, kind) => {
            made.tiers.len() >= 12
                || kind.is_input() && input_count(&made.tiers) >= 6
                || !kind.is_input() && free_count(&made.tiers) >= 8
        }
        _ => false,
    }
}

/// Whether this is the 25th constraint.
fn is_constraint_too_many(made: &Made<'_>, statement: &Statement<'_>) -> bool
    ensures { result ≡ is_constraint_too_many (made_value made.now) (statement_seen statement.now) }
{
    match statement {
        Statement::Constraint(_, _, _, _) => made.constraints.len() >= 24,
        _ => false,
    }
}

/// Whether a side has more than 8 events.
fn has_too_many_events(statement: &Statement<'_>) -> bool
    ensures { result ≡ has_too_many_events (statement_seen statement.now) }
{
    match statement {
        Statement::Constraint(_, _, left, right) => left.len() > 8 || right.len() > 8,
        _ => false,
    }
}

/// Tries the causes of what a line says, and refuses the line with the first that applies.
pub(crate) fn check(
    alloc: Global,
    made: &Made<'_>,
    statement: &Statement<'_>,
) -> Result<(), LineErr>
    ensures { MatchResult result
        (λ _. cause_of (made_value made.now) (statement_seen statement.now) ≡ None)
        (λ e. FailsCause e (cause_of (made_value made.now) (statement_seen statement.now))) }
{
    if has_bad_name(statement) {
        return Err(LineErr::Cause(GrammarCause::BadName));
    }
    if is_twice_named(alloc, made, statement)? {
        return Err(LineErr::Cause(GrammarCause::TwiceNamed));
    }
    if has_unknown_tier(made, statement) {
        return Err(LineErr::Cause(GrammarCause::UnknownTier));
    }
    if has_no_input(made, statement) {
        return Err(LineErr::Cause(GrammarCause::NotInput));
    }
    if is_tier_too_many(made, statement) {
        return Err(LineErr::Cause(GrammarCause::TooManyTiers));
    }
    if is_constraint_too_many(made, statement) {
        return Err(LineErr::Cause(GrammarCause::TooManyConstraints));
    }
    if has_too_many_events(statement) {
        return Err(LineErr::Cause(GrammarCause::TooManyEvents));
    }
    Ok(())
}
