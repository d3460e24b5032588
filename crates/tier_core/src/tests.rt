use crate::NoMemory;
use crate::class::Class;
use crate::column::Column;
use crate::event::{Event, EventList, Part};
use crate::form::{reduced, well_formed};
use crate::kind::Kind;
use crate::kind_order::kind_cmp;
use crate::order::{column_cmp, timeline_cmp};
use crate::projection::{project, squeeze};
use crate::shape::Shape;
use crate::sym::Sym;
use crate::tier::{TierKind, TierTable};
use crate::timeline::Timeline;
use std::alloc::Global;
use std::cmp::Ordering;
use std::test::Fail;

/// The column whose symbols are written as these bytes.
fn column(alloc: Global, bytes: [u8; 3]) -> Column {
    let mut syms = [Sym::Outside; 3];
    for (tier, byte) in bytes.iter().enumerate() {
        if let Some(sym) = Sym::of_byte(*byte) {
            syms[tier] = sym;
        }
    }
    Column::from_syms(alloc, &syms)
}

/// The timeline whose columns are written as these bytes.
fn timeline(alloc: Global, columns: &[[u8; 3]]) -> Result<Timeline, NoMemory> {
    let mut timeline = Timeline::new(alloc);
    for bytes in columns {
        let column = column(alloc, *bytes);
        if timeline.push(column).is_err() {
            return Err(NoMemory);
        }
    }
    Ok(timeline)
}

#[test]
fn five_bytes_are_symbols(rt: HostRuntime) {
    let cases = [
        (b'-', Some(Sym::Outside)),
        (b'+', Some(Sym::Inside)),
        (b'[', Some(Sym::Start)),
        (b']', Some(Sym::End)),
        (b'|', Some(Sym::Both)),
        (b'(', None),
        (0, None),
        (255, None),
    ];
    for (byte, want) in cases {
        let got = Sym::of_byte(byte);
        assert_eq!(rt; got, want, "at {byte}");
        if let Some(sym) = got {
            assert_eq!(rt; sym.byte(), byte);
        }
    }
}

#[test]
fn edges_make_timelines_well_formed_and_reduced(rt: HostRuntime) -> Result<(), Fail> {
    let cases = [
        ([*b"[--", *b"]--"], true, true),
        ([*b"---", *b"---"], true, false),
        ([*b"[--", *b"+--"], false, false),
        ([*b"[--", *b"|--"], false, true),
        ([*b"[[-", *b"]-]"], false, true),
        ([*b"--[", *b"--]"], true, true),
    ];
    for (columns, is_well_formed, is_reduced) in cases {
        let drawn = timeline(rt.alloc(), &columns)?;
        assert_eq!(rt; well_formed(&drawn, 3), is_well_formed);
        assert_eq!(rt; reduced(&drawn), is_reduced);
        assert_eq!(rt; drawn.len(), 2);
        assert!(rt; !drawn.is_empty());
        assert!(rt; !well_formed(&drawn, 2));
    }
    assert!(rt; well_formed(&Timeline::new(rt.alloc()), 3));
    Ok(())
}

#[test]
fn columns_are_compared_from_the_first_tier(rt: HostRuntime) {
    let cases = [
        (*b"-+[", *b"-+[", Ordering::Equal),
        (*b"--|", *b"-+-", Ordering::Less),
        (*b"|--", *b"]||", Ordering::Greater),
        (*b"[--", *b"+--", Ordering::Greater),
    ];
    for (a, b, want) in cases {
        assert_eq!(rt;
            column_cmp(&column(rt.alloc(), a), &column(rt.alloc(), b)),
            want
        );
    }
}

#[test]
fn fewer_columns_come_first(rt: HostRuntime) -> Result<(), Fail> {
    let short = timeline(rt.alloc(), &[*b"|||"])?;
    let long = timeline(rt.alloc(), &[*b"---", *b"---"])?;
    let longer = timeline(rt.alloc(), &[*b"---", *b"--+"])?;
    assert_eq!(rt; timeline_cmp(&short, &long), Ordering::Less);
    assert_eq!(rt; timeline_cmp(&longer, &long), Ordering::Greater);
    assert_eq!(rt; timeline_cmp(&long, &long), Ordering::Equal);
    Ok(())
}

#[test]
fn squeezed_projection_has_the_edges_of_the_kept_tiers(rt: HostRuntime) -> Result<(), Fail> {
    let drawn = timeline(rt.alloc(), &[*b"-[-", *b"[+-", *b"+|[", *b"]+]", *b"-]-"])?;
    assert!(rt; well_formed(&drawn, 3));
    let first = project(rt.alloc(), &drawn, 0b101)?;
    assert!(rt; first.len() == 5);
    let squeezed = squeeze(rt.alloc(), &first)?;
    assert!(rt; squeezed.len() == 3);
    for (place, want) in [b"[-", b"+[", b"]]"].iter().enumerate() {
        let syms = squeezed.column(place).syms();
        assert!(rt; syms.len() == 2);
        assert_eq!(rt; [syms[0].byte(), syms[1].byte()], **want);
    }
    Ok(())
}

#[test]
fn masks_count_tiers_from_the_lowest_bit(rt: HostRuntime) -> Result<(), Fail> {
    let names = vec![in rt.alloc();
        String::new(rt.alloc()),
        String::new(rt.alloc()),
        String::new(rt.alloc()),
    ]?;
    let kinds = vec![in rt.alloc(); TierKind::Input, TierKind::Hidden, TierKind::Input]?;
    let table = TierTable { names, kinds };
    assert_eq!(rt; table.mask(TierKind::Input), 0b101);
    assert_eq!(rt; table.mask(TierKind::Overt), 0);
    assert_eq!(rt; table.mask(TierKind::Hidden), 0b010);
    Ok(())
}

#[test]
fn classes_hold_the_columns_of_their_sets(rt: HostRuntime) {
    let single = Class::single(&column(rt.alloc(), *b"[-|"));
    assert!(rt; single.width() == 3);
    assert_eq!(rt;
        [single.bits(0), single.bits(1), single.bits(2)],
        [4, 1, 16]
    );
    assert_eq!(rt; Class::of_bits(&[4, 1, 16]), single);
    let class = Class::of_bits(&[12, 3, 31]);
    assert_eq!(rt; class.width(), 3);
    let cases = [
        (*b"[-|", true),
        (*b"]++", true),
        (*b"|--", false),
        (*b"[[-", false),
    ];
    for (bytes, want) in cases {
        assert_eq!(rt; class.has(&column(rt.alloc(), bytes)), want);
        assert_eq!(rt; single.has(&column(rt.alloc(), bytes)), bytes == *b"[-|");
    }
}

#[test]
fn events_are_kept_in_their_order(rt: HostRuntime) {
    let start = Event {
        tier: 3,
        part: Part::Start,
    };
    let interior = Event {
        tier: 0,
        part: Part::Interior,
    };
    let events = EventList::from_events(rt.alloc(), &[start, interior]);
    assert_eq!(rt; events.as_slice(), [start, interior].as_slice());
}

#[test]
#[tactic(auto, unfolding(crate::specs::Tiers::tiers_of))]
fn kinds_are_compared_by_place_then_open_tiers_then_phases(rt: HostRuntime) -> Result<(), Fail> {
    let phases = vec![in rt.alloc(); 0, 2]?;
    let shape = Shape {
        width: 3,
        inputs: 0b001,
        phases,
    };
    // in rising order: the place, the open tiers, what is unmet, and what is met
    let rows = [
        (0, 0b11, 0b00, 0b11),
        (1, 0b00, 0b00, 0b00),
        (1, 0b00, 0b10, 0b00),
        (1, 0b00, 0b00, 0b10),
        (1, 0b00, 0b01, 0b00),
        (1, 0b00, 0b00, 0b01),
        (1, 0b10, 0b00, 0b00),
        (1, 0b01, 0b00, 0b00),
    ];
    for (i, a) in rows.iter().enumerate() {
        let (place, opened, unmet, met) = *a;
        assert!(rt; opened < 4 && unmet < 4 && met < 4 && unmet & met == 0);
        let a = Kind {
            place,
            opened,
            unmet,
            met,
        };
        for (j, b) in rows.iter().enumerate() {
            let (place, opened, unmet, met) = *b;
            assert!(rt; opened < 4 && unmet < 4 && met < 4 && unmet & met == 0);
            let b = Kind {
                place,
                opened,
                unmet,
                met,
            };
            assert_eq!(rt; kind_cmp(&a, &b, &shape, 1), i.cmp(&j));
        }
    }
    Ok(())
}
