ghost use Rattle.std.specs.Prelude.{◌≡◌, ◌<◌, ◌&&◌, List, length};
ghost use Rattle.tier_core.specs.declared.sym.Sym.{Sym};
ghost use Rattle.tier_core.specs.Classes.{sets_of, has};
ghost use Rattle.tier_core.specs.Sets.{is_in};
ghost use Rattle.tier_core.specs.Timelines.{symbol};

use tier_core::Class;

/// The columns of a class whose symbol on a tier is in a set.
pub fn restrict(class: &Class, tier: u32, set: u8) -> Class
    requires { tier < length (sets_of class.now) }
    ensures width { length (sets_of result) ≡ length (sets_of class.now) }
    ensures columns { (column : List Sym)
        → has result column ≡ (has class.now column && is_in set (symbol column tier)) }
{
    class.with_set(tier, class.bits(tier) & set)
}
