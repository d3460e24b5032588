//! The sets of a class in one number of 64 bits: five bits for each of twelve tiers, those of the
//! first tier highest, and in the lowest four bits how many tiers there are.
ghost use Rattle.std.specs.Prelude.{◌≡◌, ◌≢◌, ◌↔◌, ℕ, ◌<◌, ◌≤◌, IsTrue, bit_and};
ghost use Rattle.tier_core.specs.ClassWords.{width_in, set_in, below_in};

/// The lowest bit of each tier's set.
const LOWEST: u64 = 0x0842_1084_2108_4210;

/// The set of a tier.
pub(crate) fn set_in(word: u64, tier: u32) -> u8
    requires { tier < 12 }
    ensures value { result ≡ set_in word tier }
    ensures few { result < 32 }
{
    ((word >> (59 - 5 * tier)) & 31) as u8
}

/// The word with another set on a tier.
pub(crate) fn with_set_in(word: u64, tier: u32, set: u8) -> u64
    requires tier { tier < 12 }
    requires set { set < 32 }
    ensures here { set_in result tier ≡ set }
    ensures others { (t : ℕ) → t < 12 → t ≢ tier → set_in result t ≡ set_in word t }
    ensures below { (n : ℕ) → tier < n → n ≤ 12 → below_in result n ≡ below_in word n }
{
    let turned = u64::from(set_in(word, tier) ^ set);
    word ^ (turned << (59 - 5 * tier))
}

/// Whether one of the first tiers, of which there are from 1 to 12, has the empty set.
pub(crate) fn has_empty_in(word: u64, width: u32) -> bool
    requires some { 1 ≤ width }
    requires few { width ≤ 12 }
    ensures { IsTrue result ↔ ((tier : ℕ) × (tier < width) × (set_in word tier ≡ 0)) }
{
    let symbols = word | word >> 1 | word >> 2 | word >> 3 | word >> 4;
    let tiers = (u64::MAX << (64 - 5 * width)) & LOWEST;
    tiers & !symbols != 0
}
