ghost use Rattle.std.specs.Prelude.{◌≡◌, length};
ghost use Rattle.tier_core.specs.Classes.{sets_of};

use tier_core::Class;

/// The columns that are in one class and not in another. Both classes have the same width.
#[derive(Clone, Copy, Debug)]
pub struct Difference {
    pub within: Class,
    pub without: Class,
    pub ghost one_width: { length (sets_of without) ≡ length (sets_of within) },
}
