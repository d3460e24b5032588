ghost use Rattle.std.specs.Prelude.{◌≡◌, ◌&&◌, List, length};
ghost use Rattle.tier_core.specs.declared.sym.Sym.{Sym};
ghost use Rattle.tier_core.specs.Classes.{sets_of, has};

use tier_core::Class;

/// The class of the columns that both classes hold. They have the same width.
pub fn meet(a: &Class, b: &Class) -> Class
    requires { length (sets_of a.now) ≡ length (sets_of b.now) }
    ensures width { length (sets_of result) ≡ length (sets_of a.now) }
    ensures columns { (column : List Sym)
        → has result column ≡ (has a.now column && has b.now column) }
{
    a.meet(b)
}
