ghost use Rattle.std.specs.Prelude.{MatchOption};
ghost use Rattle.cert_check.specs.Faults.{IsListedTarget};

use answer_text::ArcLine;
use tier_core::Column;

/// The target that some arcs have on a column: that of the first arc that holds it; none if no arc does.
pub(crate) fn target_on(arcs: &[ArcLine], column: &Column) -> Option<u32>
    ensures { IsListedTarget arcs.now column.now result }
{
    for arc in arcs {
        if arc.class.has(column) {
            return Some(arc.target);
        }
    }
    None
}
