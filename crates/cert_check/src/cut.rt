ghost use Rattle.std.specs.Prelude.{◌≡◌, ℕ, ◌-◌, ◌<◌, ◌≤◌, ◌^◌, bit_and};
ghost use Rattle.tier_core.specs.Kinds.{AreStretchesBelow, phase_at};

use tier_core::Kind;

/// The lowest bits of a mask, so many of them.
fn low_bits(mask: u32, count: u32) -> u32
    requires { count ≤ 24 }
    ensures { result ≡ bit_and mask (2 ^ count - 1) }
{
    mask & ((1 << count) - 1)
}

/// A kind with the phases of so many stretch implications, the first in ranked order.
pub(crate) fn cut_to(kind: &Kind, count: u32) -> Kind
    requires { count ≤ 24 }
    ensures place { result.place ≡ kind.now.place }
    ensures opened { result.opened ≡ kind.now.opened }
    ensures stretches { AreStretchesBelow count result }
    ensures phases { (i : ℕ) → i < count → phase_at result i ≡ phase_at kind.now i }
{
    Kind {
        place: kind.place,
        opened: kind.opened,
        unmet: low_bits(kind.unmet, count),
        met: low_bits(kind.met, count),
    }
}
