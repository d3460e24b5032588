ghost use Rattle.std.specs.Prelude.{◌≡◌, ◌<◌, IfOk, IsTrue, List, length, All, false};
ghost use Rattle.tier_core.specs.declared.sym.Sym.{Sym};
ghost use Rattle.tier_core.specs.Classes.{sets_of, has};
ghost use Rattle.symbol_class.specs.Held.{ArePieces};
ghost use Rattle.symbol_class.specs.Parts.{differs};
ghost use Rattle.cert_check.specs.Fitting.{ArePartedByTests};
ghost use Rattle.cert_check.specs.Pieces.{IsUniform};

use std::alloc::Global;
use symbol_class::{Difference, Shares, part, restrict, share_of};
use tier_core::{Class, NoMemory};

/// The test whether a column is in a class.
fn inside(class: &Class) -> Difference
    ensures width { length (sets_of result.within) ≡ length (sets_of class.now) }
    ensures columns { (column : List Sym) → differs result column ≡ has class.now column }
{
    Difference {
        within: *class,
        without: restrict(class, 0, 0),
    }
}

/// Parts pieces of a width by tests, so that each test holds all columns of a part or none.
pub(crate) fn parted_by_tests(
    alloc: Global,
    width: u32,
    pieces: Vec<Class>,
    tests: &[Class],
) -> Result<Vec<Class>, NoMemory>
    requires pieces { ArePieces width pieces.items }
    requires tests { All (λ test. length (sets_of test) ≡ width) tests.now }
    ensures { IfOk result (λ parts. ArePartedByTests width tests.now pieces.items parts.items) }
{
    let mut parts = pieces;
    for test in tests {
        parts = part(alloc, parts, &inside(test))?;
    }
    Ok(parts)
}

/// Whether it is seen that a test holds all columns of a class or none.
fn is_decided(class: &Class, test: &Class) -> bool
    requires { length (sets_of test.now) ≡ length (sets_of class.now) }
    ensures { IsTrue result → (c d : List Sym) → IsTrue (has class.now c) → IsTrue (has class.now d)
        → has test.now c ≡ has test.now d }
{
    match share_of(class, &inside(test)) {
        Shares::Nothing => true,
        Shares::Everything => true,
        Shares::Part => false,
    }
}

/// Whether it is seen of each test that it holds all columns of a class or none.
pub(crate) fn is_uniform(class: &Class, tests: &[Class]) -> bool
    requires { All (λ test. length (sets_of test) ≡ length (sets_of class.now)) tests.now }
    ensures { IsTrue result → IsUniform tests.now class.now }
{
    for test in tests {
        if !is_decided(class, test) {
            return false;
        }
    }
    true
}
