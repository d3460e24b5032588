ghost use Rattle.std.specs.Prelude.{◌≡◌, ◌<◌, ◌≤◌, ◌+◌, IfOk, length, map};
ghost use Rattle.tier_core.specs.Classes.{sets_of};
ghost use Rattle.tier_core.specs.Sets.{single_set};
ghost use Rattle.comprehend.specs.Tests.{still_set, still_sets, heard_set, heard_sets, overt_after, AreTestsOf};

use std::alloc::{AllocError, Global};
use tier_core::{Class, Column, TierKind, Timeline};

/// The number of a tier's set in the class of the columns without an edge on an overt tier.
fn still_set(kind: TierKind) -> u8
    ensures value { result ≡ still_set kind }
    ensures few { result < 32 }
{
    if kind.is_overt() { 3 } else { 31 }
}

/// The class of the columns without an edge on an overt tier.
fn still_class(kinds: &[TierKind]) -> Class
    requires some { 1 ≤ length kinds.now }
    requires few { length kinds.now ≤ 12 }
    ensures { sets_of result ≡ still_sets kinds.now }
{
    let mut sets = [0; 12];
    for (tier, kind) in kinds.iter().enumerate() {
        sets[tier] = still_set(*kind);
    }
    Class::of_bits(&sets[..kinds.len()])
}

/// The number of a tier's set in the class of the columns that have one column, the only one in
/// `own`, on the overt tiers, of which `before` come before this one.
fn heard_set(kind: TierKind, own: &Class, before: u32) -> u8
    ensures value { result ≡ heard_set kind (sets_of own.now) before }
    ensures few { result < 32 }
{
    if !kind.is_overt() {
        31
    } else if before < own.width() {
        own.bits(before)
    } else {
        0
    }
}

/// How many overt tiers come before the next tier.
fn overt_after(kind: TierKind, before: u32) -> u32
    requires { before < 12 }
    ensures value { result ≡ overt_after kind before }
    ensures few { result ≤ before + 1 }
{
    if kind.is_overt() { before + 1 } else { before }
}

/// The class of the columns that have this column on the overt tiers.
fn heard_class(kinds: &[TierKind], column: &Column) -> Class
    requires some { 1 ≤ length kinds.now }
    requires few { length kinds.now ≤ 12 }
    ensures { sets_of result ≡ heard_sets kinds.now (map single_set column.now) 0 }
{
    let own = Class::single(column);
    let mut sets = [0; 12];
    let mut before = 0;
    for (tier, kind) in kinds.iter().enumerate() {
        sets[tier] = heard_set(*kind, &own, before);
        before = overt_after(*kind, before);
    }
    Class::of_bits(&sets[..kinds.len()])
}

/// The tests of a surface: the class of the columns without an edge on an overt tier, and then for
/// each column of the surface the class of the columns that have it on the overt tiers.
pub(crate) fn tests_of(
    alloc: Global,
    kinds: &[TierKind],
    surface: &Timeline,
) -> Result<Vec<Class>, AllocError>
    requires some { 1 ≤ length kinds.now }
    requires few { length kinds.now ≤ 12 }
    ensures { IfOk result (λ tests. AreTestsOf kinds.now surface.now tests.items) }
{
    let mut tests = Vec::new(alloc);
    tests.push(still_class(kinds))?;
    for column in surface.columns() {
        tests.push(heard_class(kinds, column))?;
    }
    Ok(tests)
}
