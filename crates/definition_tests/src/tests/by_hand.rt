//! `violations` against counts that were worked out by hand.

use super::{THREE, TWO, constraint_of};
use crate::is_countable;
use std::alloc::Global;
use std::test::Fail;
use timeline_text::read_timeline;
use violation::violations;

/// The violations of a constraint on a timeline, both of which are written as texts.
fn count(
    alloc: Global,
    tiers: &[u8],
    width: u32,
    constraint: &[u8],
    timeline: &[u8],
) -> Result<u32, Fail> {
    if width == 0 || width > 12 {
        return Err(Fail::new("no such width"));
    }
    let constraint = constraint_of(alloc, tiers, constraint)?;
    let timeline = read_timeline(alloc, width, 65_536, timeline)?;
    if timeline.len() > 65_536 || !is_countable(&constraint, &timeline, width) {
        return Err(Fail::new("not countable"));
    }
    Ok(violations(&timeline, &constraint))
}

// What is missed on the right.
#[test]
fn implications_over_two_tiers(rt: HostRuntime) -> Result<(), Fail> {
    let alloc = rt.alloc();
    let cases: [(&[u8], &[u8], u32); 21] = [
        (b"A -> a", b"[- ]-", 1),
        (b"A -> a", b"[[ ]]", 0),
        (b"A -> a", b"[[ |] ]-", 1),
        (b"A -> [a", b"[[ ]]", 1),
        (b"A -> [a", b"[- +[ ]]", 0),
        (b"A -> a", b"empty", 0),
        (b"A -> a", b"-[ [| ]]", 0),
        (b"a -> A", b"-[ [| ]]", 1),
        (b"[A -> [a", b"[- +[ ]]", 1),
        (b"]A -> ]a", b"[- +[ ]]", 0),
        (b"[A -> a", b"[- +[ ]]", 1),
        (b"[a -> A", b"[- +[ ]]", 0),
        (b"A -> a", b"-[ [+ ]+ -]", 0),
        (b"a -> A", b"-[ [+ |+ ]+ -]", 0),
        (b"A and A -> a", b"[- |- ]-", 2),
        (b"A -> a", b"[- |- ]-", 2),
        (b"A -> ]a or [a", b"[[ ]]", 1),
        (b"A -> ]a or [a", b"[- +[ ]]", 0),
        (b"]A and [a -> A or a", b"[- ][ -]", 1),
        (b"]A and [a -> ]A", b"[- ][ -]", 0),
        (b"]A and [a -> a", b"[[ ]]", 0),
    ];
    for (constraint, timeline, due) in cases {
        let found = count(alloc, TWO, 2, constraint, timeline)?;
        let shown = String::from_utf8_lossy(alloc, timeline)?;
        assert_eq!(rt; found, due, "{shown}");
    }
    Ok(())
}

// What meets.
#[test]
fn clashes_over_two_tiers(rt: HostRuntime) -> Result<(), Fail> {
    let alloc = rt.alloc();
    let cases: [(&[u8], &[u8], u32); 17] = [
        (b"a # a", b"[[ |] ]-", 1),
        (b"]a and [a # A", b"[[ +| ]]", 1),
        (b"a # a", b"[[ || ]]", 2),
        (b"a # a", b"-[ [| ]]", 2),
        (b"[a # A", b"[- +[ ]]", 1),
        (b"]a # A", b"[- +[ ]]", 0),
        (b"A # a", b"[- +[ ]]", 1),
        (b"A # a", b"[- +[ +] ]-", 1),
        (b"A # a", b"[- +[ +| +] ]-", 2),
        (b"A and A # a", b"[- +[ +| +] ]-", 2),
        (b"a and a # A", b"[- +[ +| +] ]-", 2),
        (b"]a and [a # A", b"[- +[ +| +] ]-", 1),
        (b"]a # A", b"[- +[ +| +] ]-", 2),
        (b"[A # a", b"-[ [+ ]+ -]", 1),
        (b"A and a # [a", b"-[ [+ ]+ -]", 0),
        (b"]A # [a", b"[- ][ -]", 1),
        (b"A # a", b"[- ][ -]", 0),
    ];
    for (constraint, timeline, due) in cases {
        let found = count(alloc, TWO, 2, constraint, timeline)?;
        let shown = String::from_utf8_lossy(alloc, timeline)?;
        assert_eq!(rt; found, due, "{shown}");
    }
    Ok(())
}

#[test]
fn over_three_tiers(rt: HostRuntime) -> Result<(), Fail> {
    let alloc = rt.alloc();
    let cases: [(&[u8], &[u8], u32); 13] = [
        (b"A and a -> b", b"[[- ++[ ]]]", 0),
        (b"A and a -> b", b"[[- ]+- -]-", 1),
        (b"A and a -> b", b"[[- |+- ]]-", 2),
        (b"A and a -> b", b"[[[ |+] ]]-", 1),
        (b"A and a # b", b"[[[ |+| ]]]", 2),
        (b"A and a -> ]b", b"[[[ |+] ]]-", 2),
        (b"a -> ]b", b"[[[ |+] ]]-", 0),
        (b"A and b # a", b"[-- ]--", 0),
        (b"A -> a or b", b"[-- |[- ]]-", 1),
        (b"A -> a or b", b"[-[ |[] ]]-", 0),
        (b"[a and ]b # A", b"[-[ +[] ]]-", 1),
        (b"[a and ]b -> [A or ]A", b"[-[ +[] ]]-", 1),
        (b"A and a and b # a", b"[[[ +|| ]]]", 2),
    ];
    for (constraint, timeline, due) in cases {
        let found = count(alloc, THREE, 3, constraint, timeline)?;
        let shown = String::from_utf8_lossy(alloc, timeline)?;
        assert_eq!(rt; found, due, "{shown}");
    }
    Ok(())
}

// One constituent after the other, of which none is matched.
#[test]
fn one_for_each_of_4095_constituents(rt: HostRuntime) -> Result<(), Fail> {
    let alloc = rt.alloc();
    let mut timeline = b"[-".to_vec(alloc)?;
    for _ in 0..4_094 {
        timeline.extend_from_slice(b" |-")?;
    }
    timeline.extend_from_slice(b" ]-")?;
    assert_eq!(rt; count(alloc, TWO, 2, b"A -> a", &timeline)?, 4_095);
    Ok(())
}
