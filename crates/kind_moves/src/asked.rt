ghost use Rattle.std.specs.Prelude.{◌≡◌, ◌<◌, ◌&&◌, All, List, length};
ghost use Rattle.tier_core.specs.declared.sym.Sym.{Sym};
ghost use Rattle.tier_core.specs.Classes.{sets_of, has};
ghost use Rattle.tier_core.specs.Sets.{is_in};
ghost use Rattle.kind_moves.specs.Asks.{has_asked, set_asked, answers};

use crate::ask::Ask;
use symbol_class::restrict;
use tier_core::{Class, Event, Part};

/// The set of the symbols that meet a condition for a part.
fn set_asked(ask: Ask, part: Part) -> u8
    ensures value { result ≡ set_asked ask part }
    ensures few { result < 32 }
    ensures symbols { (s : Sym) → is_in result s ≡ has_asked ask part s }
{
    match ask {
        Ask::Present => match part {
            Part::Start => 20,
            Part::End => 24,
            Part::Interior => 2,
        },
        Ask::Absent => match part {
            Part::Start => 11,
            Part::End => 7,
            Part::Interior => 29,
        },
        Ask::NoEdge => 3,
        Ask::Open => 22,
        Ask::NoInteriorOpen => { if part.is_edge() { 31 } else { 9 } }
        Ask::NoEdgePresent => match part {
            Part::Start => 11,
            Part::End => 7,
            Part::Interior => 31,
        },
    }
}

/// The columns of a class that meet a condition for each of some types of events.
pub(crate) fn narrowed_by(class: &Class, ask: Ask, types: &[Event]) -> Class
    requires { All (λ e. e.tier < length (sets_of class.now)) types.now }
    ensures width { length (sets_of result) ≡ length (sets_of class.now) }
    ensures columns { (column : List Sym) → has result column
        ≡ (has class.now column && answers ask types.now column) }
{
    let mut rest = *class;
    for event in types {
        rest = restrict(&rest, event.tier, set_asked(ask, event.part));
    }
    rest
}
