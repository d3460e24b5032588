ghost use Rattle.std.specs.Prelude.{◌≡◌, ◌+◌, ◌<◌, ◌≤◌, ◌∷◌, [], ◌++◌, length, map, if◌then◌else◌};
ghost use Rattle.std.specs.String.{string_bytes};
ghost use Rattle.grammar_reader.specs.Canonical.{is_odd, tier_kind_text, part_text, sign_text, event_text, intersperse, tier_words, letter_words, constraint_words, header_words};
ghost use Rattle.grammar_reader.specs.Statements.{joined_by};
ghost use Rattle.grammar_reader.specs.Words.{texts_of};
ghost use Rattle.grammar_reader.specs.NamedTiers.{named_tiers};
ghost use Rattle.grammar_reader.specs.Seen.{constraint_seen};

use crate::statement::joined_by;
use crate::words::Words;
use std::slice;
use tier_core::{Constraint, Event, Family, Part, TierKind, TierTable};
use timeline_text::Letter;

/// The words of the first line.
pub(crate) fn header_words() -> Words<'static>
    ensures { texts_of result ≡ header_words }
{
    let mut words = Words::begin(b"otp");
    words.push(b"1");
    words
}

fn tier_kind_text(kind: TierKind) -> &'static [u8]
    ensures { result.now ≡ tier_kind_text kind }
{
    match kind {
        TierKind::Input => b"input",
        TierKind::Overt => b"overt",
        TierKind::Hidden => b"hidden",
    }
}

/// The words of a tier's line.
pub(crate) fn tier_words(name: &[u8], kind: TierKind) -> Words<'_>
    ensures { texts_of result ≡ tier_words (record { name = name.entry.now; kind = kind }) }
{
    let mut words = Words::begin(b"tier");
    words.push(name);
    words.push(tier_kind_text(kind));
    words
}

/// Adds the name of the tier of the lowest bit, if the mask has that bit.
fn push_where_odd<'a>(words: &mut Words<'a>, mask: u16, name: &'a [u8])
    requires { words.old.len < 40 }
    ensures words { texts_of words.new
        ≡ texts_of words.old ++ (if is_odd mask then name.entry.now ∷ [] else []) }
    ensures len { words.new.len ≤ words.old.len + 1 }
{
    if mask % 2 == 1 {
        words.push(name);
    }
}

/// The words of a letter's line, with its tiers in tier order.
pub(crate) fn letter_words<'a>(tiers: &'a TierTable, letter: &'a Letter) -> Words<'a>
    ensures { texts_of result ≡ letter_words (named_tiers tiers.entry.now) letter.entry.now }
{
    let mut words = Words::begin(b"letter");
    words.push(slice::from_ref(&letter.byte));
    words.push(b"=");
    let mut mask = letter.tiers;
    for (place, kind) in tiers.kinds.iter().enumerate() {
        if !kind.is_input() {
            continue;
        }
        push_where_odd(&mut words, mask, tiers.names[place].as_bytes());
        mask /= 2;
    }
    words
}

fn part_text(part: Part) -> &'static [u8]
    ensures { result.now ≡ part_text part }
{
    match part {
        Part::Start => b"[",
        Part::End => b"]",
        Part::Interior => b"",
    }
}

fn sign_text(family: Family) -> &'static [u8]
    ensures { result.now ≡ sign_text family }
{
    match family {
        Family::Implication => b"->",
        Family::Clash => b"#",
    }
}

fn push_event<'a>(words: &mut Words<'a>, names: &'a [String], event: Event)
    requires { words.old.len < 40 }
    ensures words { texts_of words.new
        ≡ texts_of words.old ++ event_text (map string_bytes names.entry.now) event ∷ [] }
    ensures len { words.new.len ≡ words.old.len + 1 }
{
    let name = match names.get(event.tier as usize) {
        Some(name) => name.as_bytes(),
        None => b"",
    };
    words.push_marked(part_text(event.part), name);
}

/// Adds the events of a side, with a word between any two neighbours.
fn push_side<'a>(words: &mut Words<'a>, names: &'a [String], joint: &'a [u8], events: &[Event])
    requires some { 1 ≤ length events.now }
    requires few { length events.now ≤ 8 }
    requires room { words.old.len ≤ 24 }
    ensures words { texts_of words.new
        ≡ texts_of words.old ++ intersperse joint.entry.now
        (map (event_text (map string_bytes names.entry.now)) events.now) }
    ensures room { words.new.len ≤ words.old.len + 15 }
{
    let Some((first, others)) = events.split_first() else {
        return;
    };
    push_event(words, names, *first);
    for event in others {
        words.push(joint);
        push_event(words, names, *event);
    }
}

/// The words of a constraint's line.
pub(crate) fn constraint_words<'a>(names: &'a [String], constraint: &'a Constraint) -> Words<'a>
    ensures { texts_of result
        ≡ constraint_words (map string_bytes names.entry.now)
        (constraint_seen constraint.entry.now) }
{
    let mut words = Words::begin(b"constraint");
    words.push(constraint.name.as_bytes());
    push_side(&mut words, names, b"and", constraint.left.as_slice());
    words.push(sign_text(constraint.family));
    push_side(
        &mut words,
        names,
        joined_by(constraint.family),
        constraint.right.as_slice(),
    );
    words
}
