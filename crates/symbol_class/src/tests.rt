ghost use Rattle.std.specs.Prelude.{◌≡◌, ◌<◌, All, IfOk, length};
ghost use Rattle.tier_core.specs.Classes.{sets_of};

use super::*;
use std::alloc::{AllocError, Global};
use std::cmp::Ordering;
use std::test::Fail;
use tier_core::{Class, Column, NoMemory, Sym, column_cmp};

const SYMBOLS: [Sym; 5] = [Sym::Outside, Sym::Inside, Sym::Start, Sym::End, Sym::Both];

/// How many classes of two tiers have no symbols but Outside, Start and Both in their sets.
const CLASSES: u8 = 64;

/// How many columns of two tiers there are.
const COLUMNS: u8 = 25;

/// A set of Outside, Start and Both.
fn set_of(code: u8) -> u8
    requires { code < 8 }
    ensures { result < 32 }
{
    code % 2 + code / 2 % 2 * 4 + code / 4 * 16
}

/// A class of two tiers.
fn class_of(code: u8) -> Class
    requires { code < 64 }
    ensures { length (sets_of result) ≡ 2 }
{
    Class::of_bits(&[set_of(code / 8), set_of(code % 8)])
}

/// A column of two tiers. They are numbered in column order.
fn column_of(alloc: Global, code: u8) -> Column
    requires { code < 25 }
    ensures { length result ≡ 2 }
{
    Column::from_syms(
        alloc,
        &[SYMBOLS[(code / 5) as usize], SYMBOLS[(code % 5) as usize]],
    )
}

/// How many of the classes hold a column.
fn times(classes: &[Class], column: &Column) -> usize {
    classes.iter().filter(|class| class.has(column)).count()
}

fn none_is_empty(classes: &[Class]) -> bool {
    classes.iter().all(|class| !is_empty(class))
}

#[test]
fn what_both_hold_is_met(rt: HostRuntime) {
    for a in 0..CLASSES {
        let a = class_of(a);
        for b in 0..CLASSES {
            let b = class_of(b);
            let both = meet(&a, &b);
            let mut some = false;
            for code in 0..COLUMNS {
                let column = column_of(rt.alloc(), code);
                let held = both.has(&column);
                assert_eq!(rt; held, a.has(&column) && b.has(&column));
                some = some || held;
            }
            assert_eq!(rt; is_empty(&both), !some);
        }
    }
}

#[test]
fn pieces_hold_what_the_other_does_not(rt: HostRuntime) -> Result<(), Fail> {
    for a in 0..CLASSES {
        let a = class_of(a);
        for b in 0..CLASSES {
            let b = class_of(b);
            let pieces = minus(rt.alloc(), &a, &b)?;
            assert!(rt; pieces.len() <= 2 && none_is_empty(&pieces));
            for code in 0..COLUMNS {
                let column = column_of(rt.alloc(), code);
                let held = a.has(&column) && !b.has(&column);
                assert_eq!(rt; times(&pieces, &column), usize::from(held));
            }
        }
    }
    Ok(())
}

/// Whether lists of classes hold a column just if it is in a class, and there inside or outside of
/// a difference.
fn are_sides(
    inside: &[Class],
    outside: &[Class],
    held: bool,
    tested: bool,
    column: &Column,
) -> bool {
    times(inside, column) == usize::from(held && tested)
        && times(outside, column) == usize::from(held && !tested)
}

#[test]
fn a_class_has_two_sides(rt: HostRuntime) -> Result<(), Fail> {
    for code in [63, 45, 26, 5] {
        assert!(rt; code < CLASSES);
        let class = class_of(code);
        for a in 0..CLASSES {
            let test = Difference {
                within: class_of(a),
                without: class_of(code / 2),
            };
            let mut inside = Vec::new(rt.alloc());
            let mut outside = Vec::new(rt.alloc());
            push_inside(&mut inside, &class, &test)?;
            push_outside(&mut outside, &class, &test)?;
            let expected = match (inside.is_empty(), outside.is_empty()) {
                (true, _) => Shares::Nothing,
                (false, true) => Shares::Everything,
                (false, false) => Shares::Part,
            };
            assert_eq!(rt; share_of(&class, &test), expected);
            for code in 0..COLUMNS {
                let column = column_of(rt.alloc(), code);
                let tested = test.within.has(&column) && !test.without.has(&column);
                assert!(rt; are_sides(&inside, &outside, class.has(&column), tested, &column));
            }
        }
    }
    Ok(())
}

#[test]
fn tests_part_a_class(rt: HostRuntime) -> Result<(), Fail> {
    for class in [63, 45, 26, 0] {
        assert!(rt; class < CLASSES);
        let class = class_of(class);
        for a in 0..CLASSES {
            let a = class_of(a);
            for b in 0..CLASSES {
                let b = class_of(b);
                let Split { inside, outside } = split(rt.alloc(), &class, &[a, b])?;
                assert!(rt; none_is_empty(&inside) && none_is_empty(&outside));
                for code in 0..COLUMNS {
                    let column = column_of(rt.alloc(), code);
                    let tested = a.has(&column) || b.has(&column);
                    let held = class.has(&column);
                    assert_eq!(rt; times(&inside, &column), usize::from(held && tested));
                    assert_eq!(rt; times(&outside, &column), usize::from(held && !tested));
                }
            }
        }
    }
    Ok(())
}

#[test]
fn no_test_leaves_all_outside(rt: HostRuntime) -> Result<(), Fail> {
    let class = class_of(63);
    let Split { inside, outside } = split(rt.alloc(), &class, &[])?;
    assert!(rt; inside.is_empty());
    assert_eq!(rt; outside.as_slice(), [class].as_slice());
    Ok(())
}

#[test]
fn the_least_column_is_the_first_that_is_held(rt: HostRuntime) {
    for code in 0..CLASSES {
        let class = class_of(code);
        let least = least_column(rt.alloc(), &class);
        for code in 0..COLUMNS {
            let column = column_of(rt.alloc(), code);
            if class.has(&column) {
                assert_eq!(rt; column_cmp(&least, &column), Ordering::Equal);
                break;
            }
        }
    }
}

#[test]
fn classes_are_compared_by_the_numbers_of_their_sets(rt: HostRuntime) {
    for a in 0..CLASSES {
        for b in 0..CLASSES {
            let order = class_cmp(&class_of(a), &class_of(b));
            assert_eq!(rt; order, a.cmp(&b));
        }
    }
    let wider = Class::of_bits(&[21, 21, 1]);
    assert_eq!(rt; class_cmp(&class_of(63), &wider), Ordering::Less);
}

/// In how many tiers the sets of two classes of two tiers differ.
fn differences(a: &Class, b: &Class) -> u32 {
    if a.width() != 2 || b.width() != 2 {
        return 0;
    }
    u32::from(a.bits(0) != b.bits(0)) + u32::from(a.bits(1) != b.bits(1))
}

/// Whether any two of the classes differ in both tiers.
fn all_differ(classes: &[Class]) -> bool {
    for (place, a) in classes.iter().enumerate() {
        if classes[..place].iter().any(|b| differences(a, b) < 2) {
            return false;
        }
    }
    true
}

/// The class of one cell of a square of Outside, Start and Both by Outside, Start and Both.
fn cell(alloc: Global, code: u32) -> Class
    requires { code < 9 }
    ensures { length (sets_of result) ≡ 2 }
{
    let symbols = [Sym::Outside, Sym::Start, Sym::Both];
    let first = symbols[(code / 3) as usize];
    let second = symbols[(code % 3) as usize];
    Class::single(&Column::from_syms(alloc, &[first, second]))
}

/// The cells that a mask names.
fn cells(alloc: Global, mask: u32) -> Result<Vec<Class>, AllocError>
    ensures { IfOk result (λ cells. All (λ class. length (sets_of class) ≡ 2) cells.items) }
{
    let mut cells = Vec::new(alloc);
    for code in 0..9 {
        if (mask >> code) & 1 == 1 {
            cells.push(cell(alloc, code))?;
        }
    }
    Ok(cells)
}

/// The classes to which cells are joined.
fn joined(alloc: Global, cells: &[Class]) -> Result<Vec<Class>, NoMemory>
    requires { All (λ class. length (sets_of class) ≡ 2) cells.now }
{
    let parts = split(alloc, &class_of(63), cells)?;
    join(alloc, &parts.inside)
}

#[test]
fn cells_of_a_square_are_joined(rt: HostRuntime) -> Result<(), Fail> {
    for mask in 0..512 {
        let cells = cells(rt.alloc(), mask)?;
        let joined = joined(rt.alloc(), &cells)?;
        assert!(rt; none_is_empty(&joined) && all_differ(&joined), "at {mask}");
        for code in 0..COLUMNS {
            let column = column_of(rt.alloc(), code);
            assert_eq!(rt;
                times(&joined, &column),
                times(&cells, &column),
                "at {mask}"
            );
        }
    }
    Ok(())
}

#[test]
fn squares_and_corners_are_joined_to_few(rt: HostRuntime) -> Result<(), Fail> {
    // the whole square, a row, a column, the square without a corner, the diagonal, nothing
    let cases = [
        (0b111_111_111, 1),
        (0b000_111_000, 1),
        (0b001_001_001, 1),
        (0b111_111_011, 2),
        (0b100_010_001, 3),
        (0b000_000_000, 0),
    ];
    for (mask, want) in cases {
        let cells = cells(rt.alloc(), mask)?;
        assert_eq!(rt; joined(rt.alloc(), &cells)?.len(), want, "at {mask}");
    }
    Ok(())
}
