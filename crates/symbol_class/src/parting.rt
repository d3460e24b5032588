ghost use Rattle.std.specs.Prelude.{◌≡◌, ◌&&◌, ◌++◌, ◌∷◌, [], All, IfOk, List, not, length, if◌then◌else◌};
ghost use Rattle.tier_core.specs.declared.sym.Sym.{Sym};
ghost use Rattle.tier_core.specs.Classes.{sets_of, has};
ghost use Rattle.symbol_class.specs.Held.{some_has, once_if, times_held, ArePieces, AddsClasses};

use crate::common::meet;
use crate::remainder::{push_filled, push_minus};
use crate::sides::Split;
use std::alloc::{AllocError, Global};
use tier_core::{Class, NoMemory};

/// Divides classes by a test: appends what they have in common with it to a list, and gives the
/// rest.
fn divide(
    alloc: Global,
    classes: &[Class],
    test: &Class,
    inside: &mut Vec<Class>,
) -> Result<Vec<Class>, AllocError>
    requires { All (λ class. length (sets_of class) ≡ length (sets_of test.now)) classes.now }
    ensures inside { IfOk result
        (λ outside.
        AddsClasses (length (sets_of test.now)) inside.old.items inside.new.items
        (λ column. if has test.now column then times_held classes.now column else 0)) }
    ensures outside { IfOk result
        (λ outside.
        AddsClasses (length (sets_of test.now)) [] outside.items
        (λ column. if has test.now column then 0 else times_held classes.now column)) }
{
    let mut outside = Vec::new(alloc);
    for class in classes {
        push_filled(inside, meet(class, test))?;
        push_minus(&mut outside, class, test)?;
    }
    Ok(outside)
}

/// Divides a class by all tests in turn.
fn parted_by_all(alloc: Global, class: &Class, tests: &[Class]) -> Result<Split, AllocError>
    requires { All (λ test. length (sets_of test) ≡ length (sets_of class.now)) tests.now }
    ensures inside { IfOk result
        (λ split.
        AddsClasses (length (sets_of class.now)) [] split.inside.items
        (λ column. once_if (has class.now column && some_has tests.now column))) }
    ensures outside { IfOk result
        (λ split.
        AddsClasses (length (sets_of class.now)) [] split.outside.items
        (λ column. once_if (has class.now column && not (some_has tests.now column)))) }
{
    let mut inside = Vec::new(alloc);
    let mut outside = Vec::new(alloc);
    push_filled(&mut outside, *class)?;
    for test in tests {
        outside = divide(alloc, &outside, test, &mut inside)?;
    }
    Ok(Split { inside, outside })
}

/// Divides a class by tests of its width: into classes that hold exactly its columns that are in
/// some test, and classes that hold exactly the others. None of these classes is empty, and no
/// column is in two. Fails only if memory runs out.
pub fn split(alloc: Global, class: &Class, tests: &[Class]) -> Result<Split, NoMemory>
    requires { All (λ test. length (sets_of test) ≡ length (sets_of class.now)) tests.now }
    ensures pieces { IfOk result
        (λ split.
        ArePieces (length (sets_of class.now)) (split.inside.items ++ split.outside.items)) }
    ensures inside { IfOk result
        (λ split. (column : List Sym)
        → some_has split.inside.items column
        ≡ (has class.now column && some_has tests.now column)) }
    ensures outside { IfOk result
        (λ split. (column : List Sym)
        → some_has split.outside.items column
        ≡ (has class.now column && not (some_has tests.now column))) }
{
    match parted_by_all(alloc, class, tests) {
        Ok(split) => Ok(split),
        Err(_) => Err(NoMemory),
    }
}
