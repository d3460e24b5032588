ghost use Rattle.std.specs.Prelude.{◌≡◌, ◌≤◌};
ghost use Rattle.answer_text.specs.Shape.{widths_of};

use tier_core::Shape;

/// The number of tiers that are free.
pub fn free_count(shape: &Shape) -> usize
    ensures value { result ≡ (widths_of shape.now).free }
    ensures few { result ≤ 12 }
{
    (shape.width - shape.inputs.count_ones()) as usize
}
