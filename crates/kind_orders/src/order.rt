ghost use Rattle.std.specs.Prelude.{◌≡◌, ◌<◌, ◌^◌, All, IfOk, length};
ghost use Rattle.std.specs.List.{range_with_len};
ghost use Rattle.tier_core.specs.Kinds.{kind_order};
ghost use Rattle.tier_core.specs.KindShapes.{FitsShape};
ghost use Rattle.kind_orders.specs.KindOrders.{AreDistinctKinds, IsKindOrder, prefix_kind_at};
ghost use Rattle.tier_core.specs.KindNumbers.{kind_numbered};

use std::alloc::{AllocError, Global};
use std::cmp::Ordering;
use tier_core::{Kind, NoMemory, Shape, kind_cmp};

/// The kind of a number, or that of the empty prefix if there is no such number.
fn kind_of(kinds: &[Kind], number: u32) -> Kind
    ensures { result ≡ kind_numbered kinds.now number }
{
    match kinds.get(number as usize) {
        Some(kind) => *kind,
        None => Kind {
            place: 0,
            opened: 0,
            unmet: 0,
            met: 0,
        },
    }
}

/// Compares kinds by their numbers.
fn cmp_numbers(kinds: &[Kind], shape: &Shape, stage: u32, a: u32, b: u32) -> Ordering
    requires stage { stage < length shape.now.phases.items }
    requires fit { All (FitsShape shape.now stage) kinds.now }
    ensures { result
        ≡ kind_order (prefix_kind_at shape.now stage kinds.now a)
        (prefix_kind_at shape.now stage kinds.now b) }
{
    kind_cmp(&kind_of(kinds, a), &kind_of(kinds, b), shape, stage)
}

/// The numbers below `count`, from 0. Fails only if memory runs out.
pub fn numbers_below(alloc: Global, count: u32) -> Result<Vec<u32>, AllocError>
    ensures { IfOk result (λ numbers. numbers.items ≡ range_with_len 0 count) }
{
    (0..count).collect(alloc)
}

/// The numbers of kinds, sorted by the kinds.
fn sorted_numbers(
    alloc: Global,
    shape: &Shape,
    stage: u32,
    kinds: &[Kind],
) -> Result<Vec<u32>, AllocError>
    requires stage { stage < length shape.now.phases.items }
    requires found { AreDistinctKinds shape.now stage kinds.now }
    requires few { length kinds.now < 2 ^ 32 }
    ensures { IfOk result (λ order. IsKindOrder shape.now stage kinds.now order.items) }
{
    let mut order = numbers_below(alloc, kinds.len() as u32)?;
    order.sort_unstable_by(|a, b| cmp_numbers(kinds, shape, stage, *a, *b));
    Ok(order)
}

/// The numbers of kinds in kind order. The kinds are those that are found for a stage of the shape:
/// no two of them mean the same, and their bits fit the shape at that stage. Fails only if memory
/// runs out.
pub fn order_of_kinds(
    alloc: Global,
    shape: &Shape,
    stage: u32,
    kinds: &[Kind],
) -> Result<Vec<u32>, NoMemory>
    requires found { AreDistinctKinds shape.now stage kinds.now }
    requires few { length kinds.now < 2 ^ 32 }
    ensures { IfOk result (λ order. IsKindOrder shape.now stage kinds.now order.items) }
{
    if kinds.is_empty() {
        return Ok(Vec::new(alloc));
    }
    sorted_numbers(alloc, shape, stage, kinds)
}
