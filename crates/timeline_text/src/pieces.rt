ghost use Rattle.std.specs.Prelude.{◌≡◌, length};
ghost use Rattle.timeline_text.specs.Causes.{bad_symbol, wrong_width, spaced_pieces, no_edge};

use tier_core::{Sym, Timeline, has_edge};

/// The offset of the first byte that is neither a symbol nor a space.
pub(crate) fn bad_symbol(bytes: &[u8]) -> Option<usize>
    ensures { result ≡ bad_symbol bytes.now }
{
    bytes
        .iter()
        .position(|b| !(Sym::of_byte(*b).is_some() || *b == b' '))
}

/// The number of the first piece between spaces that does not have this many bytes.
pub(crate) fn wrong_width(width: u32, bytes: &[u8]) -> Option<usize>
    ensures { result ≡ wrong_width width bytes.now }
{
    bytes
        .split(|b| *b == b' ')
        .position(|piece| piece.len() != width as usize)
}

/// How many pieces there are.
pub(crate) fn count(bytes: &[u8]) -> usize
    ensures { result ≡ length (spaced_pieces bytes.now) }
{
    bytes.split(|b| *b == b' ').count()
}

/// The place of the first column without an edge.
pub(crate) fn no_edge(timeline: &Timeline) -> Option<usize>
    ensures { result ≡ no_edge timeline.now }
{
    timeline
        .columns()
        .iter()
        .position(|column| !has_edge(column))
}
