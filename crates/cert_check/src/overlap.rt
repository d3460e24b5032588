ghost use Rattle.std.specs.Prelude.{◌≡◌, ℕ, ◌+◌, ◌<◌, ◌&&◌, All, IfOk, MatchOption, OnOk, Some, drop, length, slice_get};
ghost use Rattle.tier_core.specs.Classes.{has, sets_of};
ghost use Rattle.answer_text.specs.declared.automaton.ArcLine.{ArcLine};
ghost use Rattle.symbol_class.specs.Held.{some_has};
ghost use Rattle.answer_text.specs.ArcClasses.{arc_classes};
ghost use Rattle.cert_check.specs.Arcs.{IsLeastColumn, IsNoColumn, is_twice};
ghost use Rattle.cert_check.specs.Gathered.{AddsColumns};

use crate::least::least_of;
use answer_text::ArcLine;
use std::alloc::{AllocError, Global};
use symbol_class::{is_empty, meet};
use tier_core::{Class, Column, NoMemory};

/// Puts a class at the end of a list, unless it is empty.
fn push_filled(classes: &mut Vec<Class>, class: Class) -> Result<(), AllocError>
    ensures { OnOk result (AddsColumns classes.old.items classes.new.items (has class)) }
{
    if is_empty(&class) {
        return Ok(());
    }
    classes.push(class)?;
    Ok(())
}

/// Appends to a list what an arc has in common with those after it.
fn push_shared(shared: &mut Vec<Class>, arcs: &[ArcLine], place: usize) -> Result<(), AllocError>
    requires within { place < length arcs.now }
    requires width { (width : ℕ) × All (λ arc. length (sets_of arc.class) ≡ width) arcs.now }
    ensures { (arc : ArcLine) → slice_get arcs.now place ≡ Some arc
        → OnOk result
        (AddsColumns shared.old.items shared.new.items
        (λ column. has arc.class column
        && some_has (arc_classes (drop (place + 1) arcs.now)) column)) }
{
    for later in place + 1..arcs.len() {
        push_filled(shared, meet(&arcs[place].class, &arcs[later].class))?;
    }
    Ok(())
}

/// Puts what any two of some arcs have in common at the end of a list.
fn push_all_shared(shared: &mut Vec<Class>, arcs: &[ArcLine]) -> Result<(), AllocError>
    requires { (width : ℕ) × All (λ arc. length (sets_of arc.class) ≡ width) arcs.now }
    ensures { OnOk result
        (AddsColumns shared.old.items shared.new.items (is_twice arcs.now)) }
{
    for place in 0..arcs.len() {
        push_shared(shared, arcs, place)?;
    }
    Ok(())
}

/// The least column that is in two of some arcs, which have one width; none if no column is.
pub(crate) fn least_twice(alloc: Global, arcs: &[ArcLine]) -> Result<Option<Column>, NoMemory>
    requires { (width : ℕ) × All (λ arc. length (sets_of arc.class) ≡ width) arcs.now }
    ensures { IfOk result
        (λ least. MatchOption least (IsNoColumn (is_twice arcs.now))
        (IsLeastColumn (is_twice arcs.now))) }
{
    let mut shared = Vec::new(alloc);
    if push_all_shared(&mut shared, arcs).is_err() {
        return Err(NoMemory);
    }
    Ok(least_of(alloc, &shared))
}
