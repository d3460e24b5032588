ghost use Rattle.std.specs.Prelude.{◌≡◌, ◌≢◌, ◌≤◌, ◌<◌, ◌∷◌, [], None, length, map, take, drop, All, MatchResult, IfOk, IfErr};
ghost use Rattle.tier_core.specs.Timelines.{IsReduced};
ghost use Rattle.tier_core.specs.Tiers.{has_tier};
ghost use Rattle.timeline_text.specs.Spelling.{HasSound, IsSpelledBy, IsSpellingCause, letter_of, unknown_letter, sound_of};
ghost use Rattle.timeline_text.specs.Between.{boundary_symbol, column_between, columns_after};

use crate::form_err::FormErr;
use crate::letter::Letter;
use std::alloc::Global;
use tier_core::{Column, Sym, Timeline, has_bit};

/// The letter that is written as a byte.
fn letter_of(letters: &[Letter], byte: u8) -> Option<Letter>
    ensures { result ≡ letter_of letters.now byte }
{
    letters.iter().find(|letter| letter.byte == byte).copied()
}

/// The place of the first byte that is not a letter.
fn unknown_letter(letters: &[Letter], word: &[u8]) -> Option<usize>
    ensures { result ≡ unknown_letter letters.now word.now }
{
    word.iter()
        .position(|byte| letter_of(letters, *byte).is_none())
}

/// The tiers of the sound of a byte.
fn sound_of(letters: &[Letter], byte: u8) -> u16
    ensures { result ≡ sound_of letters.now byte }
{
    match letter_of(letters, byte) {
        Some(letter) => letter.tiers,
        None => 0,
    }
}

fn boundary_symbol(before: bool, after: bool) -> Sym
    ensures { result ≡ boundary_symbol before after }
{
    match (before, after) {
        (true, true) => Sym::Both,
        (true, false) => Sym::End,
        (false, true) => Sym::Start,
        (false, false) => Sym::Outside,
    }
}

/// The column between two sounds.
fn column_between(alloc: Global, inputs: u32, before: u16, after: u16) -> Column
    requires some { 1 ≤ inputs }
    requires few { inputs ≤ 6 }
    ensures { result ≡ column_between inputs before after }
{
    let mut syms = [Sym::Outside; 6];
    for tier in 0..inputs {
        syms[tier as usize] = boundary_symbol(
            has_bit(before as u32, tier),
            has_bit(after as u32, tier),
        );
    }
    Column::from_syms(alloc, &syms[..inputs as usize])
}

/// The columns of a word of letters.
fn columns_of(
    alloc: Global,
    letters: &[Letter],
    inputs: u32,
    word: &[u8],
) -> Result<Timeline, FormErr>
    requires some { 1 ≤ inputs }
    requires few { inputs ≤ 6 }
    ensures { MatchResult result
        (λ t. t ≡ columns_after inputs 0 (map (sound_of letters.now) word.now))
        (λ e. e ≡ FormErr.NoMemory) }
{
    let mut timeline = Timeline::new(alloc);
    let mut before = 0;
    for byte in word {
        let sound = sound_of(letters, *byte);
        let column = column_between(alloc, inputs, before, sound);
        if timeline.push(column).is_err() {
            return Err(FormErr::NoMemory);
        }
        before = sound;
    }
    let column = column_between(alloc, inputs, before, 0);
    if timeline.push(column).is_err() {
        return Err(FormErr::NoMemory);
    }
    Ok(timeline)
}

/// Reads a word that begins with `=` and spells a form over `inputs` input tiers in letters.
///
/// Letter k, counted from 0, makes a constituent (k, k + 1) on each tier of its sound. So n letters
/// give n + 1 columns, and the word `=` alone is the form without columns. The form is well formed
/// and reduced, and has at most 64 columns.
///
/// - `UnknownLetter`: a byte after the first is not a letter; the first such offset in the word.
/// - `TooLong`: all are letters, and there are more than 63.
///
/// `NoMemory` may come in place of any other answer.
pub fn read_spelled(
    alloc: Global,
    letters: &[Letter],
    inputs: u32,
    bytes: &[u8],
) -> Result<Timeline, FormErr>
    requires some { 1 ≤ inputs }
    requires few { inputs ≤ 6 }
    requires sounds { All (HasSound inputs) letters.now }
    requires word { take 1 bytes.now ≡ 61 ∷ [] }
    ensures ok { IfOk result (IsSpelledBy letters.now inputs bytes.now) }
    ensures reduced { IfOk result IsReduced }
    ensures err { IfErr result
        (λ e. e ≢ FormErr.NoMemory → IsSpellingCause letters.now bytes.now e) }
{
    let word = &bytes[1..];
    if let Some(place) = unknown_letter(letters, word) {
        return Err(FormErr::UnknownLetter { at: place + 1 });
    }
    if word.len() > 63 {
        return Err(FormErr::TooLong);
    }
    if word.is_empty() {
        return Ok(Timeline::new(alloc));
    }
    columns_of(alloc, letters, inputs, word)
}
