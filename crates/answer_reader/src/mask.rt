ghost use Rattle.std.specs.Prelude.{◌≡◌, ◌<◌, ◌≤◌, ◌^◌, length, if◌then◌else◌};
ghost use Rattle.answer_reader.specs.Masks.{mark_mask};

fn bit_of(is_set: bool, bit: u32) -> u32
    ensures { result ≡ (if is_set then bit else 0) }
{
    if is_set { bit } else { 0 }
}

/// The mask with a bit for each byte, which is set if the byte is this mark. The first byte has the
/// lowest bit.
pub fn mask_of(mark: u8, bytes: &[u8]) -> u32
    requires { length bytes.now ≤ 24 }
    ensures mask { result ≡ mark_mask mark bytes.now }
    ensures within { result < 2 ^ length bytes.now }
{
    let mut mask: u32 = 0;
    let mut bit: u32 = 1;
    for byte in bytes {
        mask += bit_of(*byte == mark, bit);
        bit *= 2;
    }
    mask
}
