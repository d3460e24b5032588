ghost use Rattle.std.specs.Prelude.{◌≡◌, ℕ, ◌+◌, ◌<◌, ◌^◌};
ghost use Rattle.tier_core.specs.Tiers.{has_tier};

/// Whether the bit of a place is set in a mask. Places are counted from 0, at the lowest bit.
pub fn has_bit(mask: u32, place: u32) -> bool
    requires { place < 32 }
    ensures { result ≡ has_tier mask place }
{
    (mask >> place) & 1 == 1
}

/// A mask of the places before this one, with the bit of this place too, or without it.
pub fn with_bit(mask: u32, place: u32, is_set: bool) -> u32
    requires place { place < 32 }
    requires before { mask < 2 ^ place }
    ensures within { result < 2 ^ (place + 1) }
    ensures here { has_tier result place ≡ is_set }
    ensures others { (t : ℕ) → t < place → has_tier result t ≡ has_tier mask t }
{
    if is_set { mask | 1 << place } else { mask }
}
