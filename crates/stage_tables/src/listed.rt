ghost use Rattle.std.specs.Prelude.{◌≡◌, ◌<◌, ◌≤◌, ℕ, length, slice_get, IfOk, IfErr, IfSome};
ghost use Rattle.tier_core.specs.declared.kind.Kind.{Kind};
ghost use Rattle.tier_core.specs.Tiers.{has_tier};
ghost use Rattle.stage_tables.specs.Listed.{AreApart, IsAt, IsNumbered, IsPutLast};

use crate::stage_table::ExploreErr;
use indexmap::IndexMap;
use tier_core::{Kind, has_bit};

/// How many numbers are kept at hand.
pub(crate) const ROOM: usize = 4096;

/// The kinds that are listed, in the order in which they are found, each with the state of the kept
/// table that it stands over.
///
/// `recent` keeps numbers at hand, so that most kinds are found without a hash: at each of its
/// places the number that was last given to a kind of that place, or any other number. `over` does
/// so for each state, and the value of the bit at place `bit` of the phases that are met: two
/// kinds over one state of which neither or both have it are mostly one.
#[derive(Drop)]
pub(crate) struct Listed {
    pub kinds: IndexMap<Kind, u32>,
    pub recent: Vec<u32>,
    pub over: Vec<u32>,
    pub bit: u32,
}

/// The kind of a number and the state that it stands over, if so many kinds are listed.
pub(crate) fn entry_at(listed: &Listed, number: usize) -> Option<(Kind, u32)>
    ensures { result ≡ slice_get listed.now.kinds.entries number }
{
    match listed.kinds.get_index(number) {
        Some((kind, state)) => Some((*kind, *state)),
        None => None,
    }
}

/// Where the number of a kind is kept at hand.
fn place_of(kind: &Kind) -> usize {
    let low = (kind.place as usize & 15) << 8;
    (low ^ kind.opened as usize ^ kind.met as usize) & (ROOM - 1)
}

/// The number of a kind, if it is at hand.
fn number_at_hand(listed: &Listed, kind: &Kind) -> Option<u32>
    ensures { IfSome result (λ k. (s : ℕ) × IsAt listed.now.kinds.entries k kind.now s) }
{
    let number = *listed.recent.get(place_of(kind))?;
    let (found, _) = entry_at(listed, number as usize)?;
    if found == *kind { Some(number) } else { None }
}

/// Where the number of a kind over a state is kept at hand, by a bit of the kind.
fn place_over(state: u32, is_met: bool) -> usize {
    if is_met {
        2 * state as usize + 1
    } else {
        2 * state as usize
    }
}

/// The number of a kind over a state, in which the bit at a place of the phases that are met has a
/// value, if it is at hand.
pub(crate) fn number_over(listed: &Listed, state: u32, bit: u32, is_met: bool) -> Option<u32>
    requires { bit < 32 }
    ensures { IfSome result (λ k. (kind : Kind) × IsAt listed.now.kinds.entries k kind state
        × (has_tier kind.met bit ≡ is_met)) }
{
    let number = *listed.over.get(place_over(state, is_met))?;
    let (kind, over) = entry_at(listed, number as usize)?;
    if over != state {
        return None;
    }
    if has_bit(kind.met, bit) != is_met {
        return None;
    }
    Some(number)
}

/// Keeps the number of a kind over a state at hand.
fn keep_over(listed: &mut Listed, kind: &Kind, state: u32, number: u32)
    ensures { listed.new.kinds ≡ listed.old.kinds }
{
    let place = place_over(state, has_bit(kind.met, listed.bit % 32));
    if place < listed.over.len() {
        listed.over[place] = number;
    }
}

/// Keeps the number of a kind over a state at hand, in both ways.
fn keep_at_hand(listed: &mut Listed, kind: &Kind, state: u32, number: u32)
    ensures { listed.new.kinds ≡ listed.old.kinds }
{
    let place = place_of(kind);
    if place < listed.recent.len() {
        listed.recent[place] = number;
    }
    keep_over(listed, kind, state, number);
}

/// The number of a kind, which is put last over a state if it is not listed yet. If it is, it stands
/// over this state. Fails if there are then more kinds than the budget, or if memory runs out.
pub(crate) fn number_of(
    listed: &mut Listed,
    kind: Kind,
    state: u32,
    budget: u32,
) -> Result<u32, ExploreErr>
    requires apart { AreApart listed.old.kinds.entries }
    requires few { length listed.old.kinds.entries ≤ budget }
    requires over_one { (k s : ℕ) → IsAt listed.old.kinds.entries k kind s → s ≡ state }
    ensures apart { IfOk result (λ _. AreApart listed.new.kinds.entries) }
    ensures numbered { IfOk result
        (λ k. IsNumbered listed.old.kinds.entries listed.new.kinds.entries k kind state) }
    ensures few { IfOk result (λ _. length listed.new.kinds.entries ≤ budget) }
    ensures over_apart { IfErr result
        (λ e. e ≡ ExploreErr.OverBudget → AreApart listed.new.kinds.entries) }
    ensures over_put { IfErr result
        (λ e. e ≡ ExploreErr.OverBudget
        → IsPutLast listed.old.kinds.entries listed.new.kinds.entries kind state) }
    ensures over { IfErr result
        (λ e. e ≡ ExploreErr.OverBudget → budget < length listed.new.kinds.entries) }
{
    if let Some(number) = number_at_hand(listed, &kind) {
        return Ok(number);
    }
    let (number, _) = match listed.kinds.insert_full(kind, state) {
        Ok(found) => found,
        Err(_) => return Err(ExploreErr::NoMemory),
    };
    if number >= budget as usize {
        return Err(ExploreErr::OverBudget);
    }
    keep_at_hand(listed, &kind, state, number as u32);
    Ok(number as u32)
}
