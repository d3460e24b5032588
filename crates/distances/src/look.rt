ghost use Rattle.std.specs.Prelude.{◌≡◌, ◌<◌, All, length, slice_index_or, None};
ghost use Rattle.distances.specs.Best.{lesser_of, best_of, FitsBoth};

use arc_table::TableArc;
use std::cmp::Ordering;
use weight_law::Weight;

/// The smaller of two weights, either of which may be missing; of equal ones the first.
fn lesser_weight<W: Weight>(known: Option<W>, other: Option<W>) -> Option<W>
    ensures { result ≡ lesser_of W.meaning known other }
{
    match other {
        None => known,
        Some(b) => match known {
            None => Some(b),
            Some(a) => match b.compare(&a) {
                Ordering::Less => Some(b),
                _ => Some(a),
            },
        },
    }
}

/// The least of what is known and of a move followed by what is known of its target.
pub(crate) fn best<W: Weight>(
    arcs: &[TableArc<W>],
    least: &[Option<W>],
    known: Option<W>,
) -> Option<W>
    requires targets { All (λ arc. arc.target < length least.now) arcs.now }
    requires sizes { All
        (λ arc.
        FitsBoth W.meaning arc.weight (slice_index_or least.now arc.target None)) arcs.now }
    ensures { result ≡ best_of least.now known arcs.now }
{
    let mut best = known;
    for arc in arcs {
        if let Some(rest) = least[arc.target as usize] {
            let sum = arc.weight.plus(&rest);
            best = lesser_weight(best, Some(sum));
        }
    }
    best
}
