ghost use Rattle.std.specs.Prelude.{◌≡◌, ◌≢◌, ◌≤◌, length, None, map, MatchResult, IfOk, IfErr};
ghost use Rattle.std.specs.List.{AllByRecursion};
ghost use Rattle.timeline_text.specs.Texts.{IsTextOf};
ghost use Rattle.timeline_text.specs.Causes.{IsCause, symbol_of_byte, columns_of, wrong_width};

use crate::form_err::FormErr;
use crate::pieces::{bad_symbol, count, no_edge, wrong_width};
use crate::tiers::ill_formed;
use std::alloc::Global;
use tier_core::{Column, Sym, Timeline};

/// The column of a piece.
fn column_of(alloc: Global, piece: &[u8]) -> Column
    requires some { 1 ≤ length piece.now }
    requires few { length piece.now ≤ 12 }
    ensures { result ≡ map symbol_of_byte piece.now }
{
    let mut syms = [Sym::Outside; 12];
    for (tier, byte) in piece.iter().enumerate() {
        syms[tier] = Sym::of_byte(*byte).unwrap_or(Sym::Outside);
    }
    Column::from_syms(alloc, &syms[..piece.len()])
}

/// The columns of a text whose pieces have this width.
fn columns_of(alloc: Global, width: u32, bytes: &[u8]) -> Result<Timeline, FormErr>
    requires some { 1 ≤ width }
    requires few { width ≤ 12 }
    requires widths { wrong_width width bytes.now ≡ None }
    ensures { MatchResult result (λ t. t ≡ columns_of bytes.now) (λ e. e ≡ FormErr.NoMemory) }
{
    let mut timeline = Timeline::new(alloc);
    for piece in bytes.split(|b| *b == b' ') {
        if timeline.push(column_of(alloc, piece)).is_err() {
            return Err(FormErr::NoMemory);
        }
    }
    Ok(timeline)
}

/// Reads the text of a timeline over `width` tiers, from 1 to 12, with at most `limit` columns. The
/// timeline is well formed and reduced.
///
/// The causes are tried in this order, and the first that applies is the error.
///
/// - `BadSymbol`: a byte is neither a symbol nor a space; the first such offset.
/// - `WrongWidth`: when the text is cut at each space, a piece does not have `width` bytes; the
///   first such piece.
/// - `TooLong`: there are more pieces than the limit.
/// - `NotWellFormed`: a tier is not well formed; the first such tier.
/// - `NotReduced`: a column has no edge; the first such column.
///
/// None of them applies to the word `empty`. `NoMemory` may come in place of any other answer.
pub fn read_timeline(
    alloc: Global,
    width: u32,
    limit: usize,
    bytes: &[u8],
) -> Result<Timeline, FormErr>
    requires some { 1 ≤ width }
    requires few { width ≤ 12 }
    ensures ok { IfOk result (IsTextOf width limit bytes.now) }
    ensures err { IfErr result (λ e. e ≢ FormErr.NoMemory → IsCause width limit bytes.now e) }
{
    if bytes == b"empty".as_slice() {
        return Ok(Timeline::new(alloc));
    }
    if let Some(at) = bad_symbol(bytes) {
        return Err(FormErr::BadSymbol { at });
    }
    if let Some(column) = wrong_width(width, bytes) {
        return Err(FormErr::WrongWidth { column });
    }
    if count(bytes) > limit {
        return Err(FormErr::TooLong);
    }
    let timeline = columns_of(alloc, width, bytes)?;
    if let Some(tier) = ill_formed(&timeline, width) {
        return Err(FormErr::NotWellFormed { tier });
    }
    if let Some(column) = no_edge(&timeline) {
        return Err(FormErr::NotReduced { column });
    }
    Ok(timeline)
}
