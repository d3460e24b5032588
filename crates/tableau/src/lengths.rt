ghost use Rattle.std.specs.Prelude.{◌≡◌, length, map, slice_index_or, []};
ghost use Rattle.std.specs.String.{string_bytes};
ghost use Rattle.timeline_text.specs.Texts.{text_of};
ghost use Rattle.tableau.specs.Layout.{count_text, count_texts, is_at};

use crate::table::TableauRow;
use itoa::Buffer;
use tier_core::Timeline;

/// How many bytes the text of a timeline has.
pub(crate) fn text_length(timeline: &Timeline) -> u128
    ensures { result ≡ length (text_of timeline.now) }
{
    let mut size = 0u128;
    for column in timeline.columns() {
        size += column.width() as u128 + 1;
    }
    if size == 0 { 5 } else { size - 1 }
}

/// Whether a column is that of the first worse constraint.
pub(crate) fn is_at(worse: Option<u32>, place: usize) -> bool
    ensures { result ≡ is_at worse place }
{
    match worse {
        None => false,
        Some(worse) => worse as usize == place,
    }
}

/// How many bytes the text of a count has in a column of a row.
pub(crate) fn count_length(worse: Option<u32>, place: usize, count: u32) -> usize
    ensures { result ≡ length (count_text worse place count) }
{
    let mut buffer = Buffer::new();
    let digits = buffer.format(count as usize).len();
    if is_at(worse, place) {
        digits + 1
    } else {
        digits
    }
}

/// How many bytes a row has in a column: none if the column is beyond its counts.
#[tactic(auto, using(crate::proofs::LengthLemmas::count_text_at, crate::proofs::LengthLemmas::no_text_at))]
pub(crate) fn row_length(row: &TableauRow, place: usize) -> usize
    ensures { result
        ≡ length (slice_index_or (count_texts row.now.worse 0 row.now.counts.items) place []) }
{
    let counts = row.counts.as_slice();
    if place < counts.len() {
        count_length(row.worse, place, counts[place])
    } else {
        0
    }
}

/// How many bytes the name of a column has: none if the column is beyond the names.
pub(crate) fn name_length(names: &[String], place: usize) -> usize
    ensures { result ≡ length (slice_index_or (map string_bytes names.now) place []) }
{
    match names.get(place) {
        Some(name) => name.len(),
        None => 0,
    }
}
