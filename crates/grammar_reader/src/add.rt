ghost use Rattle.std.specs.Prelude.{◌≡◌, ◌≤◌, ◌<◌, None, false, map, length, IsTrue, OnOk, IfErr, if◌then◌else◌};
ghost use Rattle.std.specs.List.{list_any};
ghost use Rattle.std.specs.Str.{bytes_eq};
ghost use Rattle.grammar_reader.specs.Names.{is_name};
ghost use Rattle.grammar_reader.specs.Statements.{tier, letter, constraint};
ghost use Rattle.grammar_reader.specs.Values.{inputs_of, is_named};
ghost use Rattle.grammar_reader.specs.Reading.{tier_index, indexed_event, named_mask, first_byte, cause_of, with_statement};
ghost use Rattle.grammar_reader.specs.Events.{seen_event};
ghost use Rattle.grammar_reader.specs.Seen.{tiers_seen};
ghost use Rattle.grammar_reader.specs.Said.{statement_seen, HasParts};
ghost use Rattle.grammar_reader.specs.Made.{made_value};

use crate::event::NamedEvent;
use crate::lexeme::LineErr;
use crate::made::{Made, Tiers};
use crate::statement::Statement;
use std::alloc::Global;
use tier_core::{Constraint, Event, EventList, Family, TierKind};
use timeline_text::Letter;

/// The number of a tier.
fn tier_index(tiers: &Tiers<'_>, name: &[u8]) -> u32
    requires { length tiers.now.entries ≤ 12 }
    ensures number { result ≡ tier_index (tiers_seen tiers.now.entries) name.now }
    ensures few { result < 12 }
{
    match tiers.get_index_of(name) {
        Some(number) => number as u32,
        None => 0,
    }
}

fn indexed_event(tiers: &Tiers<'_>, event: &NamedEvent<'_>) -> Event
    requires { length tiers.now.entries ≤ 12 }
    ensures event { result ≡ indexed_event (tiers_seen tiers.now.entries) (seen_event event.now) }
    ensures few { result.tier < 12 }
{
    Event {
        tier: tier_index(tiers, event.tier),
        part: event.part,
    }
}

/// One side of a constraint, with the numbers of its tiers.
fn side(alloc: Global, tiers: &Tiers<'_>, events: &[NamedEvent<'_>]) -> EventList
    requires tiers { length tiers.now.entries ≤ 12 }
    requires some { 0 < length events.now }
    requires few { length events.now ≤ 8 }
    ensures { result ≡ map (indexed_event (tiers_seen tiers.now.entries))
        (map seen_event events.now) }
{
    let mut found = [Event::default(); 8];
    for (place, event) in events.iter().enumerate() {
        found[place] = indexed_event(tiers, event);
    }
    EventList::from_events(alloc, &found[..events.len()])
}

fn is_among(name: &[u8], names: &[&[u8]]) -> bool
    ensures { result ≡ list_any (λ n. bytes_eq n name.now) (map (λ n. n.now) names.now) }
{
    names.iter().any(|each| *each == name)
}

/// The bit of a tier, set if the tier is named.
fn bit_if_named(is_named: bool, bit: u16) -> u16
    ensures { result ≡ (if is_named then bit else 0) }
{
    if is_named { bit } else { 0 }
}

/// The mask of the input tiers that are named.
fn named_mask(tiers: &Tiers<'_>, names: &[&[u8]]) -> u16
    requires { length tiers.now.entries ≤ 12 }
    ensures { result
        ≡ named_mask (inputs_of (tiers_seen tiers.now.entries)) (map (λ n. n.now) names.now) }
{
    let mut mask = 0;
    let mut bit = 1;
    for (name, kind) in tiers.iter() {
        if !kind.is_input() {
            continue;
        }
        mask += bit_if_named(is_among(name, names), bit);
        bit *= 2;
    }
    mask
}

fn first_byte(word: &[u8]) -> u8
    ensures { result ≡ first_byte word.now }
{
    match word.split_first() {
        Some((first, _)) => *first,
        None => 0,
    }
}

fn add_tier<'a>(made: &mut Made<'a>, name: &'a [u8], kind: TierKind) -> Result<(), LineErr>
    requires absent { list_any (is_named name.now) (tiers_seen made.old.tiers.entries) ≡ false }
    requires few { length made.old.tiers.entries < 12 }
    ensures ok { OnOk result
        (made_value made.new
        ≡ with_statement (made_value made.old) (tier name.entry.now kind)) }
    ensures err { IfErr result (λ e. e ≡ LineErr.NoMemory) }
{
    made.tiers.insert(name, kind)?;
    Ok(())
}

fn add_letter(made: &mut Made<'_>, byte: &[u8], names: &[&[u8]]) -> Result<(), LineErr>
    ensures err { IfErr result (λ e. e ≡ LineErr.NoMemory) }
    ensures ok { OnOk result
        (made_value made.new
        ≡ with_statement (made_value made.old) (letter byte.now (map (λ n. n.now) names.now))) }
{
    let letter = Letter {
        byte: first_byte(byte),
        tiers: named_mask(&made.tiers, names),
    };
    made.letters.push(letter)?;
    Ok(())
}

fn add_constraint(
    alloc: Global,
    made: &mut Made<'_>,
    name: &[u8],
    family: Family,
    left: &[NamedEvent<'_>],
    right: &[NamedEvent<'_>],
) -> Result<(), LineErr>
    requires name { IsTrue (is_name name.now) }
    requires some_left { 0 < length left.now }
    requires few_left { length left.now ≤ 8 }
    requires some_right { 0 < length right.now }
    requires few_right { length right.now ≤ 8 }
    ensures err { IfErr result (λ e. e ≡ LineErr.NoMemory) }
    ensures ok { OnOk result
        (made_value made.new
        ≡ with_statement (made_value made.old)
        (constraint name.now family (map seen_event left.now) (map seen_event right.now))) }
{
    let left = side(alloc, &made.tiers, left);
    let right = side(alloc, &made.tiers, right);
    // A name is ASCII, so nothing of it is lost.
    let name = String::from_utf8_lossy(alloc, name)?;
    made.constraints.push(Constraint {
        name,
        family,
        left,
        right,
    })?;
    Ok(())
}

/// Adds what a line says, if it has no cause.
pub(crate) fn add<'a>(
    alloc: Global,
    made: &mut Made<'a>,
    statement: &Statement<'a>,
) -> Result<(), LineErr>
    requires parts { HasParts (statement_seen statement.now) }
    requires no_cause { cause_of (made_value made.old) (statement_seen statement.now) ≡ None }
    ensures ok { OnOk result
        (made_value made.new
        ≡ with_statement (made_value made.old) (statement_seen statement.entry.now)) }
    ensures err { IfErr result (λ e. e ≡ LineErr.NoMemory) }
{
    match statement {
        Statement::Tier(name, kind) => add_tier(made, name, *kind),
        Statement::Letter(byte, names) => add_letter(made, byte, names),
        Statement::Constraint(name, family, left, right) => {
            add_constraint(alloc, made, name, *family, left, right)
        }
    }
}
