ghost use Rattle.std.specs.Prelude.{◌≡◌, ◌↔◌, IsTrue, List, length};
ghost use Rattle.tier_core.specs.declared.sym.Sym.{Sym};
ghost use Rattle.tier_core.specs.Classes.{sets_of, has};

use symbol_class::{is_empty, meet};
use tier_core::Class;

/// Whether two classes of one width hold a column in common.
pub(crate) fn meets(a: &Class, b: &Class) -> bool
    requires { length (sets_of a.now) ≡ length (sets_of b.now) }
    ensures { IsTrue result
        ↔ ((column : List Sym) × (IsTrue (has a.now column) × IsTrue (has b.now column))) }
{
    !is_empty(&meet(a, b))
}
