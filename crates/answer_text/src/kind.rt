ghost use Rattle.std.specs.Prelude.{◌≡◌, ◌<◌, ◌≤◌, map, take};
ghost use Rattle.std.specs.List.{range_with_len};
ghost use Rattle.outside.specs.Writers.{Pushes};
ghost use Rattle.tier_core.specs.Kinds.{phase_by_bits, prefix_kind};
ghost use Rattle.tier_core.specs.Tiers.{has_tier};
ghost use Rattle.answer_text.specs.Text.{kind_text, open_byte, phase_byte};

use outside::{OutBuffer, Sink, WriteErr, push_decimal};
use tier_core::{Kind, has_bit};

/// The byte of a free tier.
fn open_byte(opened: u16, tier: usize) -> u8
    requires { tier < 32 }
    ensures { result ≡ open_byte (has_tier opened tier) }
{
    if has_bit(opened as u32, tier as u32) {
        b'+'
    } else {
        b'-'
    }
}

/// The byte of a stretch implication.
fn phase_byte(kind: &Kind, place: usize) -> u8
    requires { place < 32 }
    ensures { result
        ≡ phase_byte (phase_by_bits (has_tier kind.now.unmet place) (has_tier kind.now.met place)) }
{
    if has_bit(kind.met, place as u32) {
        b'm'
    } else if has_bit(kind.unmet, place as u32) {
        b'u'
    } else {
        b'.'
    }
}

/// The bytes of the free tiers, at the start of the array.
fn open_bytes(opened: u16, free: usize) -> [u8; 12]
    requires { free ≤ 12 }
    ensures { take free result ≡ map open_byte (map (has_tier opened) (range_with_len 0 free)) }
{
    let mut bytes = [0; 12];
    for tier in 0..free {
        bytes[tier] = open_byte(opened, tier);
    }
    bytes
}

/// The bytes of the stretch implications, at the start of the array.
fn phase_bytes(kind: &Kind, stretches: usize) -> [u8; 24]
    requires { stretches ≤ 24 }
    ensures { take stretches result ≡ map phase_byte (prefix_kind 0 stretches kind.now).phases }
{
    let mut bytes = [0; 24];
    for place in 0..stretches {
        bytes[place] = phase_byte(kind, place);
    }
    bytes
}

/// Appends a kind, as `2/+-/m.`: its place, which of this many free tiers are open, and the phases of
/// this many stretch implications. After an error the sink has taken a prefix of the waiting bytes
/// and the kind, and no bytes wait.
pub fn push_kind<O: Sink>(
    out: &mut OutBuffer,
    sink: &mut O,
    kind: &Kind,
    free: usize,
    stretches: usize,
) -> Result<(), WriteErr>
    requires few_free { free ≤ 12 }
    requires few_stretches { stretches ≤ 24 }
    ensures { Pushes O.Sink sink.old sink.new out.old out.new
        (kind_text (prefix_kind free stretches kind.now)) result }
{
    push_decimal(out, sink, kind.place as usize)?;
    out.push(sink, b"/")?;
    out.push(sink, &open_bytes(kind.opened, free)[..free])?;
    out.push(sink, b"/")?;
    out.push(sink, &phase_bytes(kind, stretches)[..stretches])
}
