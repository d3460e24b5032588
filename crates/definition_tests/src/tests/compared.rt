//! `violations` against the slow program.

use super::{THREE, TWO, constraint_of};
use crate::{counted_by_choices, is_countable};
use std::alloc::Global;
use std::test::Fail;
use tier_core::{Column, Constraint, Sym, Timeline, well_formed};
use timeline_text::read_timeline;
use violation::violations;

const SYMBOLS: [Sym; 5] = [Sym::Outside, Sym::Inside, Sym::Start, Sym::End, Sym::Both];

/// Constraints over A and a, of all sorts.
const OVER_TWO: [&[u8]; 20] = [
    b"A -> a",
    b"A -> [a",
    b"a -> A or ]A",
    b"[A -> [a",
    b"]A -> ]a or [a",
    b"[A and [a -> A or a",
    b"]a and A -> [a",
    b"A and a -> [A or ]a",
    b"A and a -> a",
    b"a and a -> A",
    b"A -> a or [a or ]a",
    b"[A # [a",
    b"]a and [a # A",
    b"]A # [a and a",
    b"A # a",
    b"a # a",
    b"A and a # A and a",
    b"a and a # a",
    b"[a and [a # ]a",
    b"A and ]a # A and a and a",
];

/// Constraints over A, a and b, of all sorts.
const OVER_THREE: [&[u8]; 14] = [
    b"A and a -> b",
    b"A and a -> [b or ]b",
    b"A -> a or b",
    b"b -> A or a",
    b"a and b -> [A",
    b"[b -> [a or [A",
    b"]A and [a -> b",
    b"A and a # b",
    b"A and a and b # A and a and b",
    b"[A and [a # b",
    b"]a and [b # A",
    b"a # b and b",
    b"A and [a and b -> ]A or ]b or A",
    b"[b and ]b # A and a",
];

/// The timeline of so many columns over two tiers that comes after `code` others of as many.
fn timeline_by_code(alloc: Global, len: u32, code: u32) -> Result<Timeline, Fail> {
    let mut timeline = Timeline::new(alloc);
    let mut rest = code;
    for _ in 0..len {
        let first = SYMBOLS[(rest % 5) as usize];
        let second = SYMBOLS[(rest / 5 % 5) as usize];
        rest /= 25;
        if timeline
            .push(Column::from_syms(alloc, &[first, second]))
            .is_err()
        {
            return Err(Fail::new("no memory"));
        }
    }
    Ok(timeline)
}

/// The two counts of a constraint, if it may be counted.
fn both_counts(
    alloc: Global,
    constraint: &Constraint,
    timeline: &Timeline,
    width: u32,
) -> Result<(u64, u64), Fail> {
    if timeline.len() > 8 || !is_countable(constraint, timeline, width) {
        return Err(Fail::new("not countable"));
    }
    let Ok(slow) = counted_by_choices(alloc, constraint, timeline) else {
        return Err(Fail::new("no memory"));
    };
    Ok((u64::from(violations(timeline, constraint)), slow))
}

/// On how many of the well-formed timelines of so many columns both counts of each constraint are
/// the same.
fn agreeing(alloc: Global, constraints: &[Constraint], len: u32, count: u32) -> Result<u32, Fail> {
    let mut agreeing: u32 = 0;
    for code in 0..count {
        let timeline = timeline_by_code(alloc, len, code)?;
        if well_formed(&timeline, 2) && all_agree(alloc, constraints, &timeline)? {
            agreeing = agreeing.saturating_add(1);
        }
    }
    Ok(agreeing)
}

fn all_agree(alloc: Global, constraints: &[Constraint], timeline: &Timeline) -> Result<bool, Fail> {
    for constraint in constraints {
        let (quick, slow) = both_counts(alloc, constraint, timeline, 2)?;
        if quick != slow {
            return Ok(false);
        }
    }
    Ok(true)
}

// A tier has 1, 1, 2 and 5 well-formed words of 0, 1, 2 and 3 symbols.
#[test]
fn every_timeline_of_two_tiers_and_three_columns(rt: HostRuntime) -> Result<(), Fail> {
    let alloc = rt.alloc();
    let mut constraints = Vec::new(alloc);
    for text in OVER_TWO {
        constraints.push(constraint_of(alloc, TWO, text)?)?;
    }
    for (len, count, well_formed) in [(0, 1, 1), (1, 25, 1), (2, 625, 4), (3, 15_625, 25)] {
        let found = agreeing(alloc, &constraints, len, count)?;
        assert_eq!(rt; found, well_formed, "{len} columns");
    }
    Ok(())
}

#[test]
fn longer_timelines_of_three_tiers(rt: HostRuntime) -> Result<(), Fail> {
    let alloc = rt.alloc();
    let timelines: [&[u8]; 12] = [
        b"[[[ ]]]",
        b"[[- ++[ |+| ]]]",
        b"[-- |[- |+[ ]|] -]-",
        b"--[ -[+ [++ ]++ -]+ --]",
        b"[[[ ||| ||| ||| ||| ||| ||| ]]]",
        b"[-- +[- ++[ ++] +]- +[- +]- ]--",
        b"[[[ |++ |++ |+| |++ |+| |++ ]]]",
        b"-[- [|- ]|- [|[ ||| ]|] -]-",
        b"[-- ][- -][ --] [-- ][- -][ --]",
        b"[[- +|[ +|| +|+ |]+ ]-+ --]",
        b"[-[ +[+ ]+| -+| [+| ++] ]+- -]-",
        b"[[[ ++] ++[ ++| ++| ++] ]+- -]-",
    ];
    for text in OVER_THREE {
        let constraint = constraint_of(alloc, THREE, text)?;
        for columns in timelines {
            let timeline = read_timeline(alloc, 3, 8, columns)?;
            let (quick, slow) = both_counts(alloc, &constraint, &timeline, 3)?;
            let shown = String::from_utf8_lossy(alloc, columns)?;
            assert_eq!(rt; quick, slow, "{shown}");
        }
    }
    Ok(())
}
