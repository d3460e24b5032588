ghost use Rattle.std.specs.Prelude.{◌≡◌, ◌&&◌, IsTrue, List, OnOk, true, false, not, length};
ghost use Rattle.tier_core.specs.declared.sym.Sym.{Sym};
ghost use Rattle.tier_core.specs.Classes.{sets_of, has};
ghost use Rattle.symbol_class.specs.Held.{once_if, AddsClasses};
ghost use Rattle.symbol_class.specs.Parts.{differs};

use crate::common::meet;
use crate::difference::Difference;
use crate::emptiness::is_empty;
use crate::remainder::{push_filled, push_minus};
use std::alloc::AllocError;
use tier_core::Class;

/// How many of the columns of a class are in a difference.
#[derive(Clone, Copy, Debug, PartialEq, Eq)]
pub enum Shares {
    /// None of them.
    Nothing,
    /// All of them.
    Everything,
    /// Some of them, and not all, unless the class is empty.
    Part,
}

/// What a class shares with a difference of its width. Allocates no memory.
pub fn share_of(class: &Class, test: &Difference) -> Shares
    requires { length (sets_of class.now) ≡ length (sets_of test.now.within) }
    ensures nothing { result ≡ Shares.Nothing → (column : List Sym)
        → IsTrue (has class.now column) → differs test.now column ≡ false }
    ensures everything { result ≡ Shares.Everything → (column : List Sym)
        → IsTrue (has class.now column) → differs test.now column ≡ true }
{
    let inside = meet(class, &test.within);
    if is_empty(&inside) {
        return Shares::Nothing;
    }
    let both = meet(&inside, &test.without);
    if inside == both {
        return Shares::Nothing;
    }
    if inside != *class {
        return Shares::Part;
    }
    if !is_empty(&both) {
        return Shares::Part;
    }
    Shares::Everything
}

/// Appends the columns of a class that are in a difference of its width to a list, in classes none
/// of which is empty, and no column in two.
pub fn push_inside(
    pieces: &mut Vec<Class>,
    class: &Class,
    test: &Difference,
) -> Result<(), AllocError>
    requires { length (sets_of class.now) ≡ length (sets_of test.now.within) }
    ensures { OnOk result
        (AddsClasses (length (sets_of class.now)) pieces.old.items pieces.new.items
        (λ column. once_if (has class.now column && differs test.now column))) }
{
    let inside = meet(class, &test.within);
    push_minus(pieces, &inside, &test.without)?;
    Ok(())
}

/// Appends the columns of a class that are not in a difference of its width to a list, in classes
/// none of which is empty, and no column in two.
pub fn push_outside(
    pieces: &mut Vec<Class>,
    class: &Class,
    test: &Difference,
) -> Result<(), AllocError>
    requires { length (sets_of class.now) ≡ length (sets_of test.now.within) }
    ensures { OnOk result
        (AddsClasses (length (sets_of class.now)) pieces.old.items pieces.new.items
        (λ column. once_if (has class.now column && not (differs test.now column)))) }
{
    push_minus(pieces, class, &test.within)?;
    let inside = meet(class, &test.within);
    push_filled(pieces, meet(&inside, &test.without))?;
    Ok(())
}
