ghost use Rattle.std.specs.Prelude.{◌≡◌, ℕ, ◌&&◌, ◌≤◌, not, All, IfOk, List, MatchOption, OnOk, length};
ghost use Rattle.tier_core.specs.declared.sym.Sym.{Sym};
ghost use Rattle.tier_core.specs.Classes.{has, sets_of};
ghost use Rattle.symbol_class.specs.Held.{some_has};
ghost use Rattle.cert_check.specs.Arcs.{IsLeastColumn, IsNoColumn, do_differ, is_led, is_unmatched};
ghost use Rattle.cert_check.specs.Gathered.{AddsColumns};

use crate::least::least_of;
use answer_text::ArcLine;
use std::alloc::{AllocError, Global};
use symbol_class::split;
use tier_core::{Class, Column, NoMemory};

/// The classes of the arcs that lead to a target.
fn classes_to(alloc: Global, arcs: &[ArcLine], target: u32) -> Result<Vec<Class>, AllocError>
    ensures columns { IfOk result
        (λ classes. (column : List Sym)
        → some_has classes.items column ≡ is_led arcs.now target column) }
    ensures width { (width : ℕ) → All (λ arc. length (sets_of arc.class) ≡ width) arcs.now
        → IfOk result
        (λ classes. All (λ class. length (sets_of class) ≡ width) classes.items) }
{
    let mut classes = Vec::new(alloc);
    for arc in arcs {
        if arc.target != target {
            continue;
        }
        classes.push(arc.class)?;
    }
    Ok(classes)
}

/// Puts the columns of an arc on which none of the others leads to its target at the end of a list.
fn push_rest(
    alloc: Global,
    pieces: &mut Vec<Class>,
    arc: &ArcLine,
    others: &[ArcLine],
) -> Result<(), NoMemory>
    requires { All (λ other. length (sets_of other.class) ≡ length (sets_of arc.now.class))
        others.now }
    ensures { OnOk result
        (AddsColumns pieces.old.items pieces.new.items
        (λ column. has arc.now.class column && not (is_led others.now arc.now.target column))) }
{
    let Ok(tests) = classes_to(alloc, others, arc.target) else {
        return Err(NoMemory);
    };
    let parts = split(alloc, &arc.class, &tests)?;
    match pieces.extend_from_slice(parts.outside.as_slice()) {
        Ok(()) => Ok(()),
        Err(_) => Err(NoMemory),
    }
}

/// Puts the columns of arcs on which none of the others leads to the same target at the end of a list.
fn push_unmatched(
    alloc: Global,
    pieces: &mut Vec<Class>,
    arcs: &[ArcLine],
    others: &[ArcLine],
) -> Result<(), NoMemory>
    requires { (width : ℕ)
        × (All (λ arc. length (sets_of arc.class) ≡ width) arcs.now
        × All (λ arc. length (sets_of arc.class) ≡ width) others.now) }
    ensures { OnOk result
        (AddsColumns pieces.old.items pieces.new.items (is_unmatched arcs.now others.now)) }
{
    for arc in arcs {
        push_rest(alloc, pieces, arc, others)?;
    }
    Ok(())
}

/// The least column on which arcs and others, all of one width, lead to different targets; none if
/// there is no such column.
pub(crate) fn least_differing(
    alloc: Global,
    arcs: &[ArcLine],
    others: &[ArcLine],
) -> Result<Option<Column>, NoMemory>
    requires { (width : ℕ)
        × (All (λ arc. length (sets_of arc.class) ≡ width) arcs.now
        × All (λ arc. length (sets_of arc.class) ≡ width) others.now) }
    ensures { IfOk result
        (λ least. MatchOption least (IsNoColumn (do_differ arcs.now others.now))
        (IsLeastColumn (do_differ arcs.now others.now))) }
{
    let mut pieces = Vec::new(alloc);
    push_unmatched(alloc, &mut pieces, arcs, others)?;
    push_unmatched(alloc, &mut pieces, others, arcs)?;
    Ok(least_of(alloc, &pieces))
}
