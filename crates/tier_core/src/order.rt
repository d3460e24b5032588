ghost use Rattle.std.specs.Prelude.{◌≡◌, length};
ghost use Rattle.std.specs.Cmp.Lexicographic.{slice_cmp};
ghost use Rattle.tier_core.specs.Orders.{column_cmp, timeline_cmp};

use crate::column::Column;
use crate::timeline::Timeline;
use std::cmp::Ordering;

/// Compares columns symbol by symbol, from the first tier. If one goes on after the other has
/// ended, the shorter one comes first.
pub fn column_cmp(a: &Column, b: &Column) -> Ordering
    ensures { result ≡ column_cmp a.now b.now }
{
    a.syms().cmp(b.syms())
}

/// Compares as many columns with as many others: the first that differs decides.
fn in_turn(a: &[Column], b: &[Column]) -> Ordering
    requires { length a.now ≡ length b.now }
    ensures { result ≡ slice_cmp column_cmp a.now b.now }
{
    for (place, column) in a.iter().enumerate() {
        let order = column_cmp(column, &b[place]);
        if order != Ordering::Equal {
            return order;
        }
    }
    Ordering::Equal
}

/// Compares timelines by number of columns first, and then column by column.
pub fn timeline_cmp(a: &Timeline, b: &Timeline) -> Ordering
    ensures { result ≡ timeline_cmp a.now b.now }
{
    match a.len().cmp(&b.len()) {
        Ordering::Equal => in_turn(a.columns(), b.columns()),
        other => other,
    }
}
