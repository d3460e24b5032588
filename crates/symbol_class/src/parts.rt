ghost use Rattle.std.specs.Prelude.{◌≡◌, true, false, All, IfOk, OnOk, length};
ghost use Rattle.tier_core.specs.Classes.{sets_of, has};
ghost use Rattle.symbol_class.specs.Held.{once_if, ArePieces};
ghost use Rattle.symbol_class.specs.Parts.{differs, IsAlike, AddsAlike, ArePartedBy};

use crate::difference::Difference;
use crate::remainder::push_filled;
use crate::sharing::{Shares, push_inside, push_outside, share_of};
use std::alloc::{AllocError, Global};
use tier_core::{Class, NoMemory};

/// Whether a difference may have some columns of a class and lack others.
fn is_parted(class: &Class, test: &Difference) -> bool
    requires { length (sets_of class.now) ≡ length (sets_of test.now.within) }
    ensures { result ≡ false → IsAlike (differs test.now) class.now }
{
    match share_of(class, test) {
        Shares::Nothing => false,
        Shares::Everything => false,
        Shares::Part => true,
    }
}

/// Whether a difference surely has all columns or none of each class.
fn are_whole(classes: &[Class], test: &Difference) -> bool
    requires { All
        (λ class. length (sets_of class) ≡ length (sets_of test.now.within)) classes.now }
    ensures { result ≡ true → All (IsAlike (differs test.now)) classes.now }
{
    for class in classes {
        if is_parted(class, test) {
            return false;
        }
    }
    true
}

/// Appends the parts of a class to a list: those that are in a difference, and the others.
fn push_parts(parts: &mut Vec<Class>, class: &Class, test: &Difference) -> Result<(), AllocError>
    requires { length (sets_of class.now) ≡ length (sets_of test.now.within) }
    ensures { OnOk result
        (AddsAlike (length (sets_of class.now)) parts.old.items parts.new.items
        (λ column. once_if (has class.now column)) (differs test.now)) }
{
    if !is_parted(class, test) {
        push_filled(parts, *class)?;
        return Ok(());
    }
    push_outside(parts, class, test)?;
    push_inside(parts, class, test)?;
    Ok(())
}

/// Divides classes by a difference.
fn parts(alloc: Global, classes: &[Class], test: &Difference) -> Result<Vec<Class>, AllocError>
    requires { ArePieces (length (sets_of test.now.within)) classes.now }
    ensures { IfOk result
        (λ parts.
        ArePartedBy (length (sets_of test.now.within))
        (differs test.now) classes.now parts.items) }
{
    let mut parts = Vec::new(alloc);
    for class in classes {
        push_parts(&mut parts, class, test)?;
    }
    Ok(parts)
}

/// Divides pieces into parts, so that a difference has all columns of a part or none. The parts
/// hold the same columns as before, each is a part of one piece, none is empty, and no column is in
/// two. Fails only if memory runs out.
pub fn part(alloc: Global, classes: Vec<Class>, test: &Difference) -> Result<Vec<Class>, NoMemory>
    requires { ArePieces (length (sets_of test.now.within)) classes.items }
    ensures { IfOk result
        (λ parts.
        ArePartedBy (length (sets_of test.now.within))
        (differs test.now) classes.items parts.items) }
{
    if are_whole(&classes, test) {
        return Ok(classes);
    }
    match parts(alloc, &classes, test) {
        Ok(parts) => Ok(parts),
        Err(_) => Err(NoMemory),
    }
}
