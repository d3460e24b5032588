ghost use Rattle.std.specs.Prelude.{◌≡◌, ◌<◌, ◌^◌, ℕ};
ghost use Rattle.tier_core.specs.Kinds.{AreStretchesBelow, kind_order, open_order, open_tiers, phase_at, phase_order, phase_rank, phases};
ghost use Rattle.tier_core.specs.KindShapes.{FitsShape, kind_in};

use crate::kind::Kind;
use crate::mask::has_bit;
use crate::shape::Shape;
use std::cmp::Ordering;

/// Compares masks of open tiers: the first tier that is open in only one decides, and the mask in
/// which it is open comes after the other.
fn cmp_opened(a: u16, b: u16) -> Ordering
    ensures { (free : ℕ) → a < 2 ^ free → b < 2 ^ free
        → result ≡ open_order (open_tiers free a) (open_tiers free b) }
{
    let apart = (a ^ b) as u32;
    if apart == 0 {
        return Ordering::Equal;
    }
    if has_bit(a as u32, apart.trailing_zeros()) {
        Ordering::Greater
    } else {
        Ordering::Less
    }
}

/// The number of the phase of a stretch implication in their order: closed, unmet, met.
fn phase_rank(kind: &Kind, place: u32) -> u32
    requires { place < 32 }
    ensures { result ≡ phase_rank (phase_at kind.now place) }
{
    if has_bit(kind.met, place) {
        2
    } else if has_bit(kind.unmet, place) {
        1
    } else {
        0
    }
}

/// Compares phases: the first stretch implication whose phases differ decides.
fn cmp_phases(a: &Kind, b: &Kind) -> Ordering
    ensures { (n : ℕ) → AreStretchesBelow n a.now → AreStretchesBelow n b.now
        → result ≡ phase_order (phases n a.now) (phases n b.now) }
{
    let apart = (a.unmet ^ b.unmet) | (a.met ^ b.met);
    if apart == 0 {
        return Ordering::Equal;
    }
    let first = apart.trailing_zeros();
    phase_rank(a, first).cmp(&phase_rank(b, first))
}

/// Compares kinds of a stage of a shape: by place first, then by open tiers, then by phases. The
/// bits of both kinds fit the shape at that stage, so their masks decide.
pub fn kind_cmp(a: &Kind, b: &Kind, shape: &Shape, stage: u32) -> Ordering
    requires fits_a { FitsShape shape.now stage a.now }
    requires fits_b { FitsShape shape.now stage b.now }
    ensures { result ≡ kind_order (kind_in shape.now stage a.now) (kind_in shape.now stage b.now) }
{
    a.place
        .cmp(&b.place)
        .then(cmp_opened(a.opened, b.opened))
        .then(cmp_phases(a, b))
}
