ghost use Rattle.std.specs.Prelude.{◌≡◌, ◌<◌, ◌≤◌, ◌++◌, ◌∷◌, [], All, AllPairs, IfOk, IsTrue, List, true, false, length, map};
ghost use Rattle.std.specs.Ordering.{is_eq};
ghost use Rattle.std.specs.List.Sorted.{IsSortedByKey};
ghost use Rattle.tier_core.specs.declared.sym.Sym.{Sym};
ghost use Rattle.tier_core.specs.Classes.{sets_of, AreDisjoint};
ghost use Rattle.tier_core.specs.Filled.{is_filled};
ghost use Rattle.symbol_class.specs.Held.{some_has, times_held, width_of, ArePieces};
ghost use Rattle.symbol_class.specs.Joined.{DifferTwice, beside_cmp, union_on, JoinsAlong, JoinsBelow};

use crate::order::class_cmp;
use std::alloc::{AllocError, Global};
use std::cmp::Ordering;
use tier_core::{Class, NoMemory};

/// Compares classes by their sets of all tiers but this one.
fn beside_cmp(tier: u32, a: &Class, b: &Class) -> Ordering
    ensures { result ≡ beside_cmp tier (sets_of a.now) (sets_of b.now) }
{
    class_cmp(&a.with_set(tier, 0), &b.with_set(tier, 0))
}

/// The class that has the symbols of both on this tier, and the sets of the first on all others.
fn union_on(tier: u32, a: &Class, b: &Class) -> Class
    requires first { tier < length (sets_of a.now) }
    requires second { tier < length (sets_of b.now) }
    ensures { sets_of result ≡ union_on tier (sets_of a.now) (sets_of b.now) }
{
    a.with_set(tier, a.bits(tier) | b.bits(tier))
}

/// The class that is to be joined next: the current one joined with the next, if they agree on all
/// tiers but this one. Otherwise it is the next one, and the current one is done.
fn joined_next(
    done: &mut Vec<Class>,
    tier: u32,
    current: &Class,
    next: &Class,
) -> Result<Class, AllocError>
    requires first { tier < length (sets_of current.now) }
    requires second { tier < length (sets_of next.now) }
    ensures alike { is_eq (beside_cmp tier (sets_of current.now) (sets_of next.now)) ≡ true
        → IfOk result
        (λ class. (done.new.items ≡ done.old.items)
        × (sets_of class ≡ union_on tier (sets_of current.now) (sets_of next.now))) }
    ensures other { is_eq (beside_cmp tier (sets_of current.now) (sets_of next.now)) ≡ false
        → IfOk result
        (λ class. (done.new.items ≡ done.old.items ++ current.now ∷ []) × (class ≡ next.now)) }
{
    if beside_cmp(tier, current, next) == Ordering::Equal {
        return Ok(union_on(tier, current, next));
    }
    done.push(*current)?;
    Ok(*next)
}

/// Joins neighbours that agree on all tiers but this one. The classes are sorted by those tiers.
fn joined_neighbours(alloc: Global, tier: u32, sorted: &[Class]) -> Result<Vec<Class>, AllocError>
    requires wide { All (λ class. tier < length (sets_of class)) sorted.now }
    requires filled { All (λ class. IsTrue (is_filled class)) sorted.now }
    requires apart { AllPairs AreDisjoint sorted.now }
    requires sorted { IsSortedByKey sets_of (beside_cmp tier) sorted.now }
    ensures { IfOk result (λ joined. JoinsAlong tier sorted.now joined.items) }
{
    let mut joined = Vec::new(alloc);
    let (first, rest) = match sorted.split_first() {
        None => return Ok(joined),
        Some(parts) => parts,
    };
    let mut current = *first;
    for next in rest {
        current = joined_next(&mut joined, tier, &current, next)?;
    }
    joined.push(current)?;
    Ok(joined)
}

/// Joins classes that agree on all tiers but this one.
fn joined_along(alloc: Global, tier: u32, classes: Vec<Class>) -> Result<Vec<Class>, AllocError>
    requires wide { All (λ class. tier < length (sets_of class)) classes.items }
    requires filled { All (λ class. IsTrue (is_filled class)) classes.items }
    requires apart { AllPairs AreDisjoint classes.items }
    ensures { IfOk result (λ joined. JoinsAlong tier classes.items joined.items) }
{
    let mut sorted = classes;
    sorted.sort_unstable_by(|a, b| beside_cmp(tier, a, b));
    joined_neighbours(alloc, tier, &sorted)
}

/// Joins classes of one width along each tier in turn.
fn joined_once(alloc: Global, width: u32, classes: Vec<Class>) -> Result<Vec<Class>, AllocError>
    requires { ArePieces width classes.items }
    ensures { IfOk result (λ joined. JoinsBelow width width classes.items joined.items) }
{
    let mut joined = classes;
    for tier in 0..width {
        joined = joined_along(alloc, tier, joined)?;
    }
    Ok(joined)
}

/// Joins classes of one width along each tier in turn, until no more can be joined.
fn joined_fully(alloc: Global, width: u32, classes: &[Class]) -> Result<Vec<Class>, AllocError>
    requires some { 0 < width }
    requires pieces { ArePieces width classes.now }
    ensures pieces { IfOk result (λ joined. ArePieces width joined.items) }
    ensures held { IfOk result
        (λ joined. (column : List Sym)
        → times_held joined.items column ≡ times_held classes.now column) }
    ensures fewer { IfOk result (λ joined. length joined.items ≤ length classes.now) }
    ensures differ { IfOk result (λ joined. AllPairs DifferTwice joined.items) }
{
    let mut joined = Vec::from_slice(alloc, classes)?;
    let mut count = joined.len() + 1;
    'joining: while joined.len() < count {
        count = joined.len();
        joined = joined_once(alloc, width, joined)?;
    }
    Ok(joined)
}

/// Classes that hold exactly the columns of the given ones, and any two of which differ in the sets
/// of at least two tiers. There are no more of them than of the given ones, none is empty, and no
/// column is in two. The given classes have one width, none of them is empty, and no column is in
/// two. Fails only if memory runs out.
pub fn join(alloc: Global, classes: &[Class]) -> Result<Vec<Class>, NoMemory>
    requires { ArePieces (width_of classes.now) classes.now }
    ensures pieces { IfOk result (λ joined. ArePieces (width_of classes.now) joined.items) }
    ensures columns { IfOk result
        (λ joined. (column : List Sym)
        → some_has joined.items column ≡ some_has classes.now column) }
    ensures fewer { IfOk result (λ joined. length joined.items ≤ length classes.now) }
    ensures differ { IfOk result (λ joined. AllPairs DifferTwice joined.items) }
{
    let first = match classes.first() {
        None => return Ok(Vec::new(alloc)),
        Some(class) => class,
    };
    match joined_fully(alloc, first.width(), classes) {
        Ok(joined) => Ok(joined),
        Err(_) => Err(NoMemory),
    }
}
