ghost use Rattle.std.specs.Prelude.{◌≡◌, ◌<◌, ◌↔◌, if◌then◌else◌, not, IsTrue, All, List, length};
ghost use Rattle.tier_core.specs.declared.sym.Sym.{Sym};
ghost use Rattle.tier_core.specs.Classes.{sets_of, has};
ghost use Rattle.tier_core.specs.Kinds.{open_tiers};
ghost use Rattle.tier_core.specs.Scan.{opens};
ghost use Rattle.tier_core.specs.Sets.{is_in};
ghost use Rattle.tier_core.specs.Tiers.{tiers_of};
ghost use Rattle.kind_moves.specs.Leaving.{opened_among};

use symbol_class::restrict;
use tier_core::{Class, has_bit};

/// The set of the symbols after which a tier is open, or of those after which it is not.
fn leaving_set(is_open: bool) -> u8
    ensures few { result < 32 }
    ensures symbols { (s : Sym) → is_in result s ≡ (if is_open then opens s else not (opens s)) }
{
    if is_open { 22 } else { 9 }
}

/// The columns of a class after which exactly these of the tiers in a mask are open: the first of
/// them if the lowest bit of `opened` is set, and so on.
pub(crate) fn columns_opening(class: &Class, tiers: u16, opened: u16) -> Class
    requires { All (λ t. t < length (sets_of class.now)) (tiers_of tiers) }
    ensures width { length (sets_of result) ≡ length (sets_of class.now) }
    ensures columns { (column : List Sym) → IsTrue (has result column)
        ↔ (IsTrue (has class.now column) × (opened_among (tiers_of tiers) column
        ≡ open_tiers (length (tiers_of tiers)) opened)) }
{
    let mut rest = *class;
    let mut next = 0;
    for tier in 0..12 {
        if has_bit(tiers as u32, tier) {
            rest = restrict(&rest, tier, leaving_set(has_bit(opened as u32, next)));
            next += 1;
        }
    }
    rest
}
