ghost use Rattle.std.specs.Prelude.{◌≡◌};
ghost use Rattle.symbol_class.specs.ClassOrder.{class_cmp};

use std::cmp::Ordering;
use tier_core::Class;

/// Compares classes by the numbers of their sets, from the first tier on. If one goes on after the
/// other has ended, the shorter one comes first.
pub fn class_cmp(a: &Class, b: &Class) -> Ordering
    ensures { result ≡ class_cmp a.now b.now }
{
    a.sets_cmp(b)
}
