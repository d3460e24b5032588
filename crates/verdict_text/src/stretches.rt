ghost use Rattle.std.specs.Prelude.{◌≡◌, ◌≤◌, slice_index_or};
ghost use Rattle.answer_text.specs.Shape.{widths_of};

use tier_core::Shape;

/// The number of stretch implications at a stage. There is none at a stage that the shape does not
/// have.
pub(crate) fn stretch_count(shape: &Shape, stage: u32) -> usize
    ensures value { result ≡ slice_index_or (widths_of shape.now).stretches stage 0 }
    ensures few { result ≤ 24 }
{
    match shape.phases.get(stage as usize) {
        Some(count) => *count as usize,
        None => 0,
    }
}
