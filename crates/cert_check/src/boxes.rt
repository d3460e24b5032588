ghost use Rattle.std.specs.Prelude.{◌≡◌, ℕ, ◌<◌, ◌≤◌, All, List, length, true};
ghost use Rattle.std.specs.List.{list_all};
ghost use Rattle.tier_core.specs.declared.sym.Sym.{Sym};
ghost use Rattle.tier_core.specs.Classes.{sets_of, has};
ghost use Rattle.tier_core.specs.Sets.{is_in};
ghost use Rattle.tier_core.specs.Timelines.{symbol};
ghost use Rattle.cert_check.specs.Boxes.{is_so};

use symbol_class::restrict;
use tier_core::{Class, Event, Part};

/// What is asked of the symbol that a column has on the tier of a type of events.
#[derive(Clone, Copy, Debug)]
pub(crate) enum Asked {
    /// An event of the type is present.
    Present,
    /// No event of the type is present.
    Absent,
    /// The tier is open after the column.
    Open,
    /// The tier is not open after the column, if the type is an interior.
    NotInside,
    /// There is no edge.
    NoEdge,
}

/// The number of the set of the symbols at which a part of a constituent stands.
fn present_set(part: Part) -> u8
    ensures value { (sym : Sym) → is_in result sym ≡ is_so Asked.Present part sym }
    ensures few { result < 32 }
{
    match part {
        Part::Start => 20,
        Part::End => 24,
        Part::Interior => 2,
    }
}

/// The number of the set of the symbols at which it does not stand.
fn absent_set(part: Part) -> u8
    ensures value { (sym : Sym) → is_in result sym ≡ is_so Asked.Absent part sym }
    ensures few { result < 32 }
{
    match part {
        Part::Start => 11,
        Part::End => 7,
        Part::Interior => 29,
    }
}

/// The number of the set of the symbols after which the tier is not open, for an interior, and of all
/// symbols for an edge.
fn not_inside_set(part: Part) -> u8
    ensures value { (sym : Sym) → is_in result sym ≡ is_so Asked.NotInside part sym }
    ensures few { result < 32 }
{
    match part {
        Part::Start => 31,
        Part::End => 31,
        Part::Interior => 9,
    }
}

/// The number of the set of the symbols of which what is asked is so.
fn set_for(asked: Asked, part: Part) -> u8
    ensures value { (sym : Sym) → is_in result sym ≡ is_so asked part sym }
    ensures few { result < 32 }
{
    match asked {
        Asked::Present => present_set(part),
        Asked::Absent => absent_set(part),
        Asked::Open => 22,
        Asked::NotInside => not_inside_set(part),
        Asked::NoEdge => 3,
    }
}

/// The class of all columns of a width.
pub(crate) fn all_columns(width: u32) -> Class
    requires some { 1 ≤ width }
    requires few { width ≤ 12 }
    ensures width { length (sets_of result) ≡ width }
    ensures columns { (column : List Sym) → length column ≡ width → has result column ≡ true }
{
    let sets = [31; 12];
    Class::of_bits(&sets[..width as usize])
}

/// The class of the columns of which what is asked is so on the tier of each type.
pub(crate) fn box_of(width: u32, types: &[Event], asked: Asked) -> Class
    requires some { 1 ≤ width }
    requires few { width ≤ 12 }
    requires tiers { All (λ e. e.tier < width) types.now }
    ensures width { length (sets_of result) ≡ width }
    ensures columns { (column : List Sym) → length column ≡ width
        → has result column
        ≡ list_all (λ e. is_so asked e.part (symbol column e.tier)) types.now }
{
    let mut class = all_columns(width);
    for event in types {
        class = restrict(&class, event.tier, set_for(asked, event.part));
    }
    class
}
