ghost use Rattle.std.specs.Prelude.{◌≡◌, ◌==◌, ◌<◌, length, option_map, position, IfSome};
ghost use Rattle.answer_reader.specs.Cuts.{begins, behind, cut, part_seen, parts_seen};

/// The place of the first byte with this value.
fn place_of(byte: u8, bytes: &[u8]) -> Option<usize>
    ensures place { result ≡ position (λ x. x == byte) bytes.now }
    ensures within { IfSome result (λ k. k < length bytes.now) }
{
    bytes.iter().position(|each| *each == byte)
}

/// Cuts bytes at the first byte with this value: what comes before it, and what comes after it.
pub fn cut(byte: u8, bytes: &[u8]) -> Option<(&[u8], &[u8])>
    ensures { option_map parts_seen result ≡ cut byte bytes.entry.now }
{
    match place_of(byte, bytes) {
        None => None,
        Some(place) => Some((&bytes[..place], &bytes[place + 1..])),
    }
}

/// What follows a prefix, if the bytes begin with it.
pub fn behind<'a>(front: &[u8], bytes: &'a [u8]) -> Option<&'a [u8]>
    ensures { option_map part_seen result ≡ behind front.now bytes.entry.now }
{
    bytes.strip_prefix(front)
}

/// Whether bytes begin with a prefix.
pub fn begins(front: &[u8], bytes: &[u8]) -> bool
    ensures { result ≡ begins front.now bytes.now }
{
    bytes.strip_prefix(front).is_some()
}
