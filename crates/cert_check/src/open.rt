ghost use Rattle.std.specs.Prelude.{◌≡◌, ℕ, ◌-◌, ◌<◌, ◌≤◌, All, true, length, if◌then◌else◌};
ghost use Rattle.std.specs.List.{list_all};
ghost use Rattle.tier_core.specs.Tiers.{has_tier, is_input};
ghost use Rattle.cert_check.specs.Opens.{is_open_before, is_open_by, inputs_before};

use tier_core::{Event, Kind, TierKind, Timeline, has_bit, with_bit};

/// Whether an input tier, counted among these, is open at a place of a form.
fn is_open_before(form: &Timeline, place: u32, input: u32) -> bool
    requires place { place ≤ length form.now }
    requires wide { All (λ column. input < length column) form.now }
    ensures { result ≡ is_open_before form.now place input }
{
    if place == 0 {
        return false;
    }
    form.column(place as usize - 1).sym(input).is_open_after()
}

/// Whether a tier of a kind is open, before which there are so many input tiers.
fn is_open(tier: u32, tier_kind: TierKind, inputs: u32, form: &Timeline, kind: &Kind) -> bool
    requires tier { tier < 12 }
    requires inputs { inputs ≤ tier }
    requires place { kind.now.place ≤ length form.now }
    requires wide { is_input tier_kind ≡ true → All (λ column. inputs < length column) form.now }
    ensures { result
        ≡
        (if is_input tier_kind then is_open_before form.now kind.now.place inputs
        else has_tier kind.now.opened (tier - inputs)) }
{
    if tier_kind.is_input() {
        return is_open_before(form, kind.place, inputs);
    }
    has_bit(kind.opened as u32, tier - inputs)
}

fn one_where(is_so: bool) -> u32
    ensures value { result ≡ (if is_so then 1 else 0) }
    ensures few { result ≤ 1 }
{
    if is_so { 1 } else { 0 }
}

/// The mask of the tiers that are open at a kind.
pub(crate) fn open_tiers(kinds: &[TierKind], form: &Timeline, kind: &Kind) -> u32
    requires few { length kinds.now ≤ 12 }
    requires place { kind.now.place ≤ length form.now }
    requires wide { All
        (λ column. length column ≡ inputs_before kinds.now (length kinds.now)) form.now }
    ensures { (tier : ℕ) → tier < length kinds.now
        → has_tier result tier
        ≡ is_open_by kinds.now form.now kind.now.place kind.now.opened tier }
{
    let mut open = 0;
    let mut inputs = 0;
    for tier in 0..kinds.len() {
        let tier_kind = kinds[tier];
        let is_open = is_open(tier as u32, tier_kind, inputs, form, kind);
        open = with_bit(open, tier as u32, is_open);
        inputs += one_where(tier_kind.is_input());
    }
    open
}

/// Whether the tiers of all types are in a mask.
pub(crate) fn are_all_open(mask: u32, types: &[Event]) -> bool
    requires { All (λ e. e.tier < 12) types.now }
    ensures { result ≡ list_all (λ e. has_tier mask e.tier) types.now }
{
    types.iter().all(|e| has_bit(mask, e.tier))
}
