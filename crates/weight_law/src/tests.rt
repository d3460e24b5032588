ghost use Rattle.std.specs.Prelude.{◌+◌, ◌≤◌};

use super::*;

fn sum_and_order<W: Weight>(a: W, b: W) -> (W, Ordering)
    requires { W.meaning.size a + W.meaning.size b ≤ u32.MAX }
{
    (a.plus(&b), a.compare(&b))
}

fn no_move<W: Weight>() -> W {
    W::zero()
}

#[test]
fn counts_are_added_and_compared_as_numbers(rt: HostRuntime) {
    assert_eq!(rt; no_move::<Count>(), Count(0));
    let cases = [
        (2, 3, 5, Ordering::Less),
        (3, 2, 5, Ordering::Greater),
        (7, 7, 14, Ordering::Equal),
        (0, 1, 1, Ordering::Less),
        (2_000_000_000, 2_000_000_001, 4_000_000_001, Ordering::Less),
    ];
    for (a, b, sum, order) in cases {
        assert!(rt; a <= 2_000_000_000 && b <= 2_000_000_001);
        assert_eq!(rt;
            sum_and_order(Count(a), Count(b)),
            (Count(sum), order),
            "at {a} and {b}"
        );
    }
}

#[test]
fn unit_weights_are_all_equal(rt: HostRuntime) {
    let unit = no_move::<UnitWeight>();
    assert_eq!(rt; unit, UnitWeight);
    assert_eq!(rt;
        sum_and_order(unit, UnitWeight),
        (UnitWeight, Ordering::Equal)
    );
}

#[test]
fn ranked_weights_are_compared_from_the_first_part(rt: HostRuntime) {
    let mut high = [0u32; 24];
    high[0] = 1;
    let mut low = [7u32; 24];
    low[0] = 0;
    let mut both = [7u32; 24];
    both[0] = 1;
    assert_eq!(rt; no_move::<Ranked>(), Ranked::of_parts([0; 24]));
    assert_eq!(rt;
        Ranked::of_parts(high).compare(&Ranked::of_parts(low)),
        Ordering::Greater
    );
    assert_eq!(rt;
        Ranked::of_parts(high).plus(&Ranked::of_parts(low)).parts(),
        &both[..]
    );
}

#[test]
fn pairs_are_compared_by_the_first_weight_first(rt: HostRuntime) {
    let cases = [
        (0, 1, 0, 2, Ordering::Less),
        (0, 9, 1, 0, Ordering::Less),
        (2, 0, 1, 9, Ordering::Greater),
        (3, 4, 3, 4, Ordering::Equal),
    ];
    for (a, b, c, d, order) in cases {
        let one = Pair {
            first: Count(a),
            second: Count(b),
        };
        let other = Pair {
            first: Count(c),
            second: Count(d),
        };
        assert_eq!(rt; one.compare(&other), order);
    }
    let unit = Pair {
        first: Count(1),
        second: UnitWeight,
    };
    let sum = Pair {
        first: Count(2),
        second: UnitWeight,
    };
    assert_eq!(rt; sum_and_order(unit, unit), (sum, Ordering::Equal));
}
