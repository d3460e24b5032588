ghost use Rattle.std.specs.Prelude.{◌≡◌, ◌↔◌, IsTrue, List, false, not, length};
ghost use Rattle.tier_core.specs.declared.sym.Sym.{Sym};
ghost use Rattle.tier_core.specs.Classes.{sets_of, has};
ghost use Rattle.tier_core.specs.Filled.{is_filled};

use tier_core::Class;

/// Whether a class holds no column of its width. It never holds one of another width.
pub fn is_empty(class: &Class) -> bool
    ensures columns { IsTrue result
        ↔
        ((column : List Sym) → length column ≡ length (sets_of class.now)
        → has class.now column ≡ false) }
    ensures sets { result ≡ not (is_filled class.now) }
{
    class.has_empty_set()
}
