ghost use Rattle.std.specs.Prelude.{◌≡◌, ℕ, ◌<◌, ◌≤◌, [], IfOk, List, OnOk, length};
ghost use Rattle.tier_core.specs.declared.sym.Sym.{Sym};
ghost use Rattle.tier_core.specs.Classes.{sets_of, has};
ghost use Rattle.tier_core.specs.Scan.{opens};
ghost use Rattle.tier_core.specs.Timelines.{symbol};
ghost use Rattle.violation.specs.Conditions.{IsOverTiers};
ghost use Rattle.cert_check.specs.Alike.{AreAlikeFor};
ghost use Rattle.cert_check.specs.Fitting.{OpenAlike};
ghost use Rattle.cert_check.specs.Tests.{AddsTests};

use crate::boxes::all_columns;
use crate::parting::push_tests;
use std::alloc::{AllocError, Global};
use symbol_class::restrict;
use tier_core::{Class, Constraint, NoMemory};

/// The class of the columns after which a tier is open.
fn open_after(width: u32, tier: u32) -> Class
    requires few { width ≤ 12 }
    requires within { tier < width }
    ensures width { length (sets_of result) ≡ width }
    ensures columns { (column : List Sym) → length column ≡ width
        → has result column ≡ opens (symbol column tier) }
{
    restrict(&all_columns(width), tier, 22)
}

/// Puts tests of the open tiers at the end of a list.
fn push_open_tests(tests: &mut Vec<Class>, width: u32) -> Result<(), AllocError>
    requires few { width ≤ 12 }
    ensures { OnOk result (AddsTests width tests.old.items tests.new.items (OpenAlike width)) }
{
    for tier in 0..width {
        tests.push(open_after(width, tier))?;
    }
    Ok(())
}

/// Tests that tell which tiers are open after columns. Fails only if memory runs out.
pub(crate) fn open_tests(alloc: Global, width: u32) -> Result<Vec<Class>, NoMemory>
    requires few { width ≤ 12 }
    ensures { IfOk result (λ tests. AddsTests width [] tests.items (OpenAlike width)) }
{
    let mut tests = Vec::new(alloc);
    match push_open_tests(&mut tests, width) {
        Ok(()) => Ok(tests),
        Err(_) => Err(NoMemory),
    }
}

/// Tests that tell how columns go on under a constraint. Fails only if memory runs out.
pub(crate) fn constraint_tests(
    alloc: Global,
    width: u32,
    constraint: &Constraint,
) -> Result<Vec<Class>, NoMemory>
    requires some { 1 ≤ width }
    requires few { width ≤ 12 }
    requires over { IsOverTiers width constraint.now }
    ensures { IfOk result (λ tests. AddsTests width [] tests.items (AreAlikeFor constraint.now)) }
{
    let mut tests = Vec::new(alloc);
    match push_tests(&mut tests, width, constraint) {
        Ok(()) => Ok(tests),
        Err(_) => Err(NoMemory),
    }
}
