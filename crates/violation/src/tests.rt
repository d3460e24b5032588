//! Each call once, on the tiers A and a, the form `[ ]` and the constraints `A -> a` and `a -> A`.
ghost use Rattle.std.specs.Prelude.{◌≡◌, ◌≤◌, ◌<◌, length};
ghost use Rattle.violation.specs.Conditions.{AreTiersBelow};

use crate::{is_candidate, vector, vector_cmp, violations};
use std::alloc::Global;
use std::cmp::Ordering;
use std::test::Fail;
use tier_core::{
    Column, Constraint, Event, EventList, Family, Part, Sym, TierKind, TierTable, Timeline,
    well_formed,
};

/// The timeline whose columns are written in this way, two bytes for each.
fn read(alloc: Global, text: &[[u8; 2]]) -> Result<Timeline, Fail> {
    let mut timeline = Timeline::new(alloc);
    for bytes in text {
        let first = Sym::of_byte(bytes[0]).unwrap_or(Sym::Outside);
        let second = Sym::of_byte(bytes[1]).unwrap_or(Sym::Outside);
        if timeline
            .push(Column::from_syms(alloc, &[first, second]))
            .is_err()
        {
            return Err(Fail::new("no memory"));
        }
    }
    Ok(timeline)
}

/// The interior of a tier.
fn interior(alloc: Global, tier: u32) -> EventList
    requires { tier < 2 }
    ensures below { AreTiersBelow 2 result }
    ensures some { 1 ≤ length result }
{
    let part = Part::Interior;
    EventList::from_events(alloc, &[Event { tier, part }])
}

fn implication(alloc: Global, left: u32, right: u32) -> Constraint
    requires left { left < 2 }
    requires right { right < 2 }
    ensures left { AreTiersBelow 2 result.left }
    ensures right { AreTiersBelow 2 result.right }
    ensures some { 1 ≤ length result.left }
{
    Constraint {
        name: String::new(alloc),
        family: Family::Implication,
        left: interior(alloc, left),
        right: interior(alloc, right),
    }
}

/// The violations of a constraint, and the vector of it alone.
fn count_and_vector(
    alloc: Global,
    constraint: Constraint,
    timeline: &Timeline,
) -> Result<(u32, Vec<u32>), Fail>
    requires left { AreTiersBelow 2 constraint.left }
    requires right { AreTiersBelow 2 constraint.right }
    requires some { 1 ≤ length constraint.left }
{
    if !well_formed(timeline, 2) || timeline.len() > 65_536 {
        return Err(Fail::new("no timeline"));
    }
    let count = violations(timeline, &constraint);
    let counts = vector(alloc, &[constraint], timeline)?;
    Ok((count, counts))
}

#[test]
fn counts_the_rows_of_a_tableau(rt: HostRuntime) -> Result<(), Fail> {
    let alloc = rt.alloc();
    let whole = read(alloc, &[*b"[[", *b"]]"])?;
    let nothing = read(alloc, &[*b"[-", *b"]-"])?;
    let two = read(alloc, &[*b"-[", *b"[|", *b"]]"])?;
    for (timeline, max, dep) in [(&whole, 0, 0), (&nothing, 1, 0), (&two, 0, 1)] {
        let (count, counts) = count_and_vector(alloc, implication(alloc, 0, 1), timeline)?;
        assert_eq!(rt; count, max);
        assert_eq!(rt; counts.as_slice(), [max].as_slice());
        let (count, counts) = count_and_vector(alloc, implication(alloc, 1, 0), timeline)?;
        assert_eq!(rt; count, dep);
        assert_eq!(rt; counts.as_slice(), [dep].as_slice());
    }
    Ok(())
}

#[test]
fn compares_vectors_from_the_highest_constraint(rt: HostRuntime) {
    assert_eq!(rt; vector_cmp(&[0, 9], &[1, 0]), Ordering::Less);
    assert_eq!(rt; vector_cmp(&[1, 2], &[1, 2]), Ordering::Equal);
}

#[test]
fn finds_candidates(rt: HostRuntime) -> Result<(), Fail> {
    let alloc = rt.alloc();
    let tiers = TierTable {
        names: vec![in alloc; String::new(alloc), String::new(alloc)]?,
        kinds: vec![in alloc; TierKind::Input, TierKind::Overt]?,
    };
    let form = read(alloc, &[*b"[-", *b"]-"])?;
    let one = read_one(alloc)?;
    assert!(rt; is_candidate(&tiers, &one, &form));
    assert!(rt; !is_candidate(&tiers, &form, &form));
    Ok(())
}

/// The form `[ ]`.
fn read_one(alloc: Global) -> Result<Timeline, Fail> {
    let mut timeline = Timeline::new(alloc);
    for sym in [Sym::Start, Sym::End] {
        if timeline.push(Column::from_syms(alloc, &[sym])).is_err() {
            return Err(Fail::new("no memory"));
        }
    }
    Ok(timeline)
}
