ghost use Rattle.std.specs.Prelude.{◌≡◌, ◌+◌, ◌≤◌, ◌&&◌, IfOk, OnOk, List, not, length};
ghost use Rattle.tier_core.specs.declared.sym.Sym.{Sym};
ghost use Rattle.tier_core.specs.Classes.{sets_of, has};
ghost use Rattle.symbol_class.specs.Held.{some_has, once_if, ArePieces, AddsClasses};

use crate::emptiness::is_empty;
use crate::sets::restrict;
use std::alloc::{AllocError, Global};
use tier_core::{Class, NoMemory};

/// Appends a class to a list, unless it is empty.
pub(crate) fn push_filled(pieces: &mut Vec<Class>, class: Class) -> Result<(), AllocError>
    ensures held { OnOk result
        (AddsClasses (length (sets_of class)) pieces.old.items pieces.new.items
        (λ column. once_if (has class column))) }
    ensures few { OnOk result (length pieces.new.items ≤ length pieces.old.items + 1) }
{
    if is_empty(&class) {
        return Ok(());
    }
    pieces.push(class)?;
    Ok(())
}

/// Appends the pieces of `a` without `b` to a list: for each tier the columns that are in the sets
/// of `b` on the tiers before it, and not on this one.
pub fn push_minus(pieces: &mut Vec<Class>, a: &Class, b: &Class) -> Result<(), AllocError>
    requires { length (sets_of a.now) ≡ length (sets_of b.now) }
    ensures held { OnOk result
        (AddsClasses (length (sets_of a.now)) pieces.old.items pieces.new.items
        (λ column. once_if (has a.now column && not (has b.now column)))) }
    ensures few { OnOk result
        (length pieces.new.items ≤ length pieces.old.items + length (sets_of a.now)) }
{
    let mut rest = *a;
    for tier in 0..a.width() {
        let set = b.bits(tier);
        push_filled(pieces, restrict(&rest, tier, !set))?;
        rest = restrict(&rest, tier, set);
    }
    Ok(())
}

/// At most as many classes as there are tiers, none of them empty and no column in two, that hold
/// exactly the columns of `a` that are not in `b`. Both have the same width. Fails only if memory
/// runs out.
pub fn minus(alloc: Global, a: &Class, b: &Class) -> Result<Vec<Class>, NoMemory>
    requires { length (sets_of a.now) ≡ length (sets_of b.now) }
    ensures pieces { IfOk result (λ pieces. ArePieces (length (sets_of a.now)) pieces.items) }
    ensures columns { IfOk result
        (λ pieces. (column : List Sym)
        → some_has pieces.items column ≡ (has a.now column && not (has b.now column))) }
    ensures few { IfOk result (λ pieces. length pieces.items ≤ length (sets_of a.now)) }
{
    let mut pieces = Vec::new(alloc);
    match push_minus(&mut pieces, a, b) {
        Ok(()) => Ok(pieces),
        Err(_) => Err(NoMemory),
    }
}
